//! The values of the held cells, by number, in the order in which the cells were taken.
ghost use Rattle.std.specs.Prelude.{◌≡◌, ◌<◌, [], ◌∷◌, ◌++◌, length, IfSome, IfNone};

use std::marker::Model;

/// At most seven cells by number, the first taken first, in places of their own, so that no call takes memory. Contracts
/// see it as a list.
#[derive(Drop)]
pub struct Held<T> {
    pub(crate) first: Option<(u32, T)>,
    pub(crate) second: Option<(u32, T)>,
    pub(crate) third: Option<(u32, T)>,
    pub(crate) fourth: Option<(u32, T)>,
    pub(crate) fifth: Option<(u32, T)>,
    pub(crate) sixth: Option<(u32, T)>,
    pub(crate) seventh: Option<(u32, T)>,
}

impl<T> Model for Held<T> {
    ghost use Rattle.std.specs.Prelude.{ℕ, List, [], ◌≡◌};
    ghost use Rattle.turn_table.specs.Held.{before, IsInFrontOf};

    ghost Value = { List (ℕ × T) };

    ghost view = { λ h. (before h.first (before h.second (before h.third (before h.fourth (before h.fifth (before h.sixth (before h.seventh []))))))) };

    ghost invariant = { λ h. IsInFrontOf h.first (before h.second (before h.third (before h.fourth (before h.fifth (before h.sixth (before h.seventh [])))))) × IsInFrontOf h.second (before h.third (before h.fourth (before h.fifth (before h.sixth (before h.seventh []))))) × IsInFrontOf h.third (before h.fourth (before h.fifth (before h.sixth (before h.seventh [])))) × IsInFrontOf h.fourth (before h.fifth (before h.sixth (before h.seventh []))) × IsInFrontOf h.fifth (before h.sixth (before h.seventh [])) × IsInFrontOf h.sixth (before h.seventh []) };
}

impl<T: Drop> Held<T> {
    /// No cell.
    pub fn new() -> Held<T>
        ensures { result ≡ [] }
    {
        Held {
            first: None,
            second: None,
            third: None,
            fourth: None,
            fifth: None,
            sixth: None,
            seventh: None,
        }
    }

    /// With one more cell behind the others.
    pub fn with(self, number: u32, value: T) -> Held<T>
        requires { length self < 7 }
        ensures { result ≡ self ++ (number, value) ∷ [] }
    {
        let Held {
            first,
            second,
            third,
            fourth,
            fifth,
            sixth,
            seventh,
        } = self;
        match (first, second, third, fourth, fifth, sixth, seventh) {
            (None, None, None, None, None, None, None) => Held {
                first: Some((number, value)),
                second: None,
                third: None,
                fourth: None,
                fifth: None,
                sixth: None,
                seventh: None,
            },
            (Some(a), None, None, None, None, None, None) => Held {
                first: Some(a),
                second: Some((number, value)),
                third: None,
                fourth: None,
                fifth: None,
                sixth: None,
                seventh: None,
            },
            (Some(a), Some(b), None, None, None, None, None) => Held {
                first: Some(a),
                second: Some(b),
                third: Some((number, value)),
                fourth: None,
                fifth: None,
                sixth: None,
                seventh: None,
            },
            (Some(a), Some(b), Some(c), None, None, None, None) => Held {
                first: Some(a),
                second: Some(b),
                third: Some(c),
                fourth: Some((number, value)),
                fifth: None,
                sixth: None,
                seventh: None,
            },
            (Some(a), Some(b), Some(c), Some(d), None, None, None) => Held {
                first: Some(a),
                second: Some(b),
                third: Some(c),
                fourth: Some(d),
                fifth: Some((number, value)),
                sixth: None,
                seventh: None,
            },
            (Some(a), Some(b), Some(c), Some(d), Some(e), None, None) => Held {
                first: Some(a),
                second: Some(b),
                third: Some(c),
                fourth: Some(d),
                fifth: Some(e),
                sixth: Some((number, value)),
                seventh: None,
            },
            (Some(a), Some(b), Some(c), Some(d), Some(e), Some(f), None) => Held {
                first: Some(a),
                second: Some(b),
                third: Some(c),
                fourth: Some(d),
                fifth: Some(e),
                sixth: Some(f),
                seventh: Some((number, value)),
            },
            _ => unreachable!(),
        }
    }

    /// The first cell, and the others; `None` where there is no cell.
    pub fn split_first(self) -> Option<((u32, T), Held<T>)>
        ensures some { IfSome result (λ r. self ≡ r.0 ∷ r.1) }
        ensures none { IfNone result (self ≡ []) }
    {
        let Held {
            first,
            second,
            third,
            fourth,
            fifth,
            sixth,
            seventh,
        } = self;
        match first {
            Some(a) => Some((
                a,
                Held {
                    first: second,
                    second: third,
                    third: fourth,
                    fourth: fifth,
                    fifth: sixth,
                    sixth: seventh,
                    seventh: None,
                },
            )),
            None => None,
        }
    }

    /// Gives up a value with no cell.
    pub fn end(self)
        requires { self ≡ [] }
    {}
}
