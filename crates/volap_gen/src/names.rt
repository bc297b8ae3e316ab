//! The dimensions of the generated hierarchy, and the names of their concepts.

use std::fmt;

/// A dimension of three levels.
#[derive(Clone, Copy, Debug, PartialEq, Eq)]
pub enum Dim {
    Date,
    Store,
    Product,
}

impl Dim {
    ghost use Rattle.std.specs.Prelude.{◌≡◌};
    ghost use Rattle.volap_gen.specs.Names.{top_count, middle_count, leaf_count, top_letter, middle_letter, leaf_letter};

    /// How many concepts the first level has.
    pub fn top_count(self) -> u64
        ensures { result ≡ top_count self }
    {
        match self {
            Dim::Date => 3,
            Dim::Store => 4,
            Dim::Product => 5,
        }
    }

    /// How many concepts of the second level each of these has.
    pub fn middle_count(self) -> u64
        ensures { result ≡ middle_count self }
    {
        match self {
            Dim::Date => 12,
            Dim::Store => 5,
            Dim::Product => 4,
        }
    }

    /// How many concepts of the leaf level each of those has.
    pub fn leaf_count(self) -> u64
        ensures { result ≡ leaf_count self }
    {
        match self {
            Dim::Date => 28,
            Dim::Store => 5,
            Dim::Product => 10,
        }
    }

    /// The letter of the first level's names.
    fn top_letter(self) -> &'static str
        ensures { result.now ≡ top_letter self }
    {
        match self {
            Dim::Date => "y",
            Dim::Store => "c",
            Dim::Product => "g",
        }
    }

    /// The letter of the second level's names.
    fn middle_letter(self) -> &'static str
        ensures { result.now ≡ middle_letter self }
    {
        match self {
            Dim::Date => "m",
            Dim::Store => "t",
            Dim::Product => "l",
        }
    }

    /// The letter of the leaf level's names.
    fn leaf_letter(self) -> &'static str
        ensures { result.now ≡ leaf_letter self }
    {
        match self {
            Dim::Date => "d",
            Dim::Store => "s",
            Dim::Product => "i",
        }
    }
}

impl fmt::Display for Dim {
    ghost use Rattle.std.specs.Prelude.{Some};
    ghost use Rattle.volap_gen.specs.Names.{dim_name};

    ghost output = { λ d. Some (dim_name d) };

    fn fmt<W: fmt::Write>(&self, f: &mut fmt::Formatter<W>) -> fmt::Result {
        match self {
            Dim::Date => write!(f, "date"),
            Dim::Store => write!(f, "store"),
            Dim::Product => write!(f, "product"),
        }
    }
}

/// A concept of the first level, by its number.
#[derive(Clone, Copy, Debug, PartialEq, Eq)]
pub struct Top {
    pub dim: Dim,
    pub number: u64,
}

impl fmt::Display for Top {
    ghost use Rattle.std.specs.Prelude.{Some};
    ghost use Rattle.volap_gen.specs.Names.{top_name};

    ghost output = { λ c. Some (top_name c.dim c.number) };

    #[tactic(auto, unfolding(crate::specs::Names::top_name))]
    fn fmt<W: fmt::Write>(&self, f: &mut fmt::Formatter<W>) -> fmt::Result {
        let letter = self.dim.top_letter();
        let number = self.number;
        write!(f, "{letter}{number}")
    }
}

/// A concept of the second level, by its number under the one above it.
#[derive(Clone, Copy, Debug, PartialEq, Eq)]
pub struct Middle {
    pub above: Top,
    pub number: u64,
}

impl fmt::Display for Middle {
    ghost use Rattle.std.specs.Prelude.{Some};
    ghost use Rattle.volap_gen.specs.Names.{middle_name};

    ghost output = { λ c. Some (middle_name c.above.dim c.above.number c.number) };

    #[tactic(auto, unfolding(crate::specs::Names::middle_name))]
    fn fmt<W: fmt::Write>(&self, f: &mut fmt::Formatter<W>) -> fmt::Result {
        let above = &self.above;
        let letter = self.above.dim.middle_letter();
        let number = self.number;
        write!(f, "{above}{letter}{number}")
    }
}

/// A leaf concept, by its number under the one above it.
#[derive(Clone, Copy, Debug, PartialEq, Eq)]
pub struct Leaf {
    pub above: Middle,
    pub number: u64,
}

impl Leaf {
    ghost use Rattle.std.specs.Prelude.{◌≡◌};
    ghost use Rattle.volap_gen.specs.Names.{leaf_at};
    ghost use Rattle.volap_gen.specs.Printed.{leaf_text};

    /// The leaf concept with this number in its dimension, counted from 0.
    pub fn at(dim: Dim, n: u64) -> Leaf
        ensures { leaf_text result ≡ leaf_at dim n }
    {
        let under_top = dim.middle_count() * dim.leaf_count();
        let top = Top {
            dim,
            number: n / under_top,
        };
        let middle = Middle {
            above: top,
            number: n % under_top / dim.leaf_count(),
        };
        Leaf {
            above: middle,
            number: n % dim.leaf_count(),
        }
    }
}

impl fmt::Display for Leaf {
    ghost use Rattle.std.specs.Prelude.{Some};
    ghost use Rattle.volap_gen.specs.Printed.{leaf_text};

    ghost output = { λ c. Some (leaf_text c) };

    #[tactic(auto, unfolding(crate::specs::Names::leaf_name))]
    fn fmt<W: fmt::Write>(&self, f: &mut fmt::Formatter<W>) -> fmt::Result {
        let above = &self.above;
        let letter = self.above.above.dim.leaf_letter();
        let number = self.number;
        write!(f, "{above}{letter}{number}")
    }
}
