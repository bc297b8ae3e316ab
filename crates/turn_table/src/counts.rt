//! The values of the held cells, of which there are as many as one knows: taken apart, and put together.
ghost use Rattle.std.specs.Prelude.{◌≡◌, [], ◌∷◌, length};

use crate::held::Held;

impl<T: Drop> Held<T> {
    /// The cell, which is the only one.
    pub fn one(self) -> (u32, T)
        requires { length self ≡ 1 }
        ensures { self ≡ result ∷ [] }
    {
        let Held {
            first,
            second: _,
            third: _,
            fourth: _,
            fifth: _,
            sixth: _,
            seventh: _,
        } = self;
        match first {
            Some(a) => a,
            None => unreachable!(),
        }
    }

    /// All cells, of which there are two.
    pub fn two(self) -> ((u32, T), (u32, T))
        requires { length self ≡ 2 }
        ensures { self ≡ result.0 ∷ result.1 ∷ [] }
    {
        let Held {
            first,
            second,
            third: _,
            fourth: _,
            fifth: _,
            sixth: _,
            seventh: _,
        } = self;
        match (first, second) {
            (Some(a), Some(b)) => (a, b),
            _ => unreachable!(),
        }
    }

    /// All cells, of which there are three.
    pub fn three(self) -> ((u32, T), (u32, T), (u32, T))
        requires { length self ≡ 3 }
        ensures { self ≡ result.0 ∷ result.1 ∷ result.2 ∷ [] }
    {
        let Held {
            first,
            second,
            third,
            fourth: _,
            fifth: _,
            sixth: _,
            seventh: _,
        } = self;
        match (first, second, third) {
            (Some(a), Some(b), Some(c)) => (a, b, c),
            _ => unreachable!(),
        }
    }

    /// All cells, of which there are four.
    pub fn four(self) -> ((u32, T), (u32, T), (u32, T), (u32, T))
        requires { length self ≡ 4 }
        ensures { self ≡ result.0 ∷ result.1 ∷ result.2 ∷ result.3 ∷ [] }
    {
        let Held {
            first,
            second,
            third,
            fourth,
            fifth: _,
            sixth: _,
            seventh: _,
        } = self;
        match (first, second, third, fourth) {
            (Some(a), Some(b), Some(c), Some(d)) => (a, b, c, d),
            _ => unreachable!(),
        }
    }

    /// All cells, of which there are five.
    pub fn five(self) -> ((u32, T), (u32, T), (u32, T), (u32, T), (u32, T))
        requires { length self ≡ 5 }
        ensures { self ≡ result.0 ∷ result.1 ∷ result.2 ∷ result.3 ∷ result.4 ∷ [] }
    {
        let Held {
            first,
            second,
            third,
            fourth,
            fifth,
            sixth: _,
            seventh: _,
        } = self;
        match (first, second, third, fourth, fifth) {
            (Some(a), Some(b), Some(c), Some(d), Some(e)) => (a, b, c, d, e),
            _ => unreachable!(),
        }
    }

    /// All cells, of which there are six.
    pub fn six(self) -> ((u32, T), (u32, T), (u32, T), (u32, T), (u32, T), (u32, T))
        requires { length self ≡ 6 }
        ensures { self ≡ result.0 ∷ result.1 ∷ result.2 ∷ result.3 ∷ result.4 ∷ result.5 ∷ [] }
    {
        let Held {
            first,
            second,
            third,
            fourth,
            fifth,
            sixth,
            seventh: _,
        } = self;
        match (first, second, third, fourth, fifth, sixth) {
            (Some(a), Some(b), Some(c), Some(d), Some(e), Some(f)) => (a, b, c, d, e, f),
            _ => unreachable!(),
        }
    }

    /// All cells, of which there are seven.
    pub fn seven(
        self,
    ) -> (
        (u32, T),
        (u32, T),
        (u32, T),
        (u32, T),
        (u32, T),
        (u32, T),
        (u32, T),
    )
        requires { length self ≡ 7 }
        ensures { self ≡ result.0 ∷ result.1 ∷ result.2 ∷ result.3 ∷ result.4 ∷ result.5 ∷ result.6 ∷ [] }
    {
        let Held {
            first,
            second,
            third,
            fourth,
            fifth,
            sixth,
            seventh,
        } = self;
        match (first, second, third, fourth, fifth, sixth, seventh) {
            (Some(a), Some(b), Some(c), Some(d), Some(e), Some(f), Some(g)) => (
                a, b, c, d, e, f, g,
            ),
            _ => unreachable!(),
        }
    }

    /// This cell alone.
    pub fn of_one(a: (u32, T)) -> Held<T>
        ensures { result ≡ a ∷ [] }
    {
        Held {
            first: Some(a),
            second: None,
            third: None,
            fourth: None,
            fifth: None,
            sixth: None,
            seventh: None,
        }
    }

    /// These two cells.
    pub fn of_two(a: (u32, T), b: (u32, T)) -> Held<T>
        ensures { result ≡ a ∷ b ∷ [] }
    {
        Held {
            first: Some(a),
            second: Some(b),
            third: None,
            fourth: None,
            fifth: None,
            sixth: None,
            seventh: None,
        }
    }

    /// These three cells.
    pub fn of_three(a: (u32, T), b: (u32, T), c: (u32, T)) -> Held<T>
        ensures { result ≡ a ∷ b ∷ c ∷ [] }
    {
        Held {
            first: Some(a),
            second: Some(b),
            third: Some(c),
            fourth: None,
            fifth: None,
            sixth: None,
            seventh: None,
        }
    }

    /// These four cells.
    pub fn of_four(a: (u32, T), b: (u32, T), c: (u32, T), d: (u32, T)) -> Held<T>
        ensures { result ≡ a ∷ b ∷ c ∷ d ∷ [] }
    {
        Held {
            first: Some(a),
            second: Some(b),
            third: Some(c),
            fourth: Some(d),
            fifth: None,
            sixth: None,
            seventh: None,
        }
    }

    /// These five cells.
    pub fn of_five(a: (u32, T), b: (u32, T), c: (u32, T), d: (u32, T), e: (u32, T)) -> Held<T>
        ensures { result ≡ a ∷ b ∷ c ∷ d ∷ e ∷ [] }
    {
        Held {
            first: Some(a),
            second: Some(b),
            third: Some(c),
            fourth: Some(d),
            fifth: Some(e),
            sixth: None,
            seventh: None,
        }
    }

    /// These six cells.
    pub fn of_six(
        a: (u32, T),
        b: (u32, T),
        c: (u32, T),
        d: (u32, T),
        e: (u32, T),
        f: (u32, T),
    ) -> Held<T>
        ensures { result ≡ a ∷ b ∷ c ∷ d ∷ e ∷ f ∷ [] }
    {
        Held {
            first: Some(a),
            second: Some(b),
            third: Some(c),
            fourth: Some(d),
            fifth: Some(e),
            sixth: Some(f),
            seventh: None,
        }
    }

    /// These seven cells.
    pub fn of_seven(
        a: (u32, T),
        b: (u32, T),
        c: (u32, T),
        d: (u32, T),
        e: (u32, T),
        f: (u32, T),
        g: (u32, T),
    ) -> Held<T>
        ensures { result ≡ a ∷ b ∷ c ∷ d ∷ e ∷ f ∷ g ∷ [] }
    {
        Held {
            first: Some(a),
            second: Some(b),
            third: Some(c),
            fourth: Some(d),
            fifth: Some(e),
            sixth: Some(f),
            seventh: Some(g),
        }
    }
}
