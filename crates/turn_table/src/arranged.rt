//! The values of the held cells in another order, found by their numbers.
ghost use Rattle.std.specs.Prelude.{◌≡◌, ℕ, ◌+◌, ◌≤◌, List, ◌∷◌, ◌++◌, length};
ghost use mathlib.Core.Option.{some, none};
ghost use Rattle.turn_table.specs.Held.{AreNumbersOf};
ghost use Rattle.turn_table.specs.Numbered.{value_of, numbers_of};

use crate::held::Held;

impl<T: Drop> Held<T> {
    /// These cells, and the others behind them.
    fn and(self, others: Held<T>) -> Held<T>
        requires { length self + length others ≤ 7 }
        ensures { result ≡ self ++ others }
    {
        let mut all = self;
        let mut left = others;
        while let Some(next) = left.split_first() {
            let (entry, behind) = next;
            all = all.with(entry.0, entry.1);
            left = behind;
        }
        all
    }

    /// The value of the cell with this number, and the others in their order.
    pub fn take_out(self, number: u32) -> (T, Held<T>)
        requires few { length self ≤ 7 }
        requires there { (c : T) × (value_of self number ≡ some c) }
        ensures value { value_of self number ≡ some result.0 }
        ensures others { (xs ys : List (ℕ × T)) × (self ≡ xs ++ (number, result.0) ∷ ys) × (result.1 ≡ xs ++ ys) × (value_of xs number ≡ none) }
    {
        let mut passed = Held::new();
        let mut left = self;
        while let Some(next) = left.split_first() {
            let (entry, behind) = next;
            let (at, value) = entry;
            if at == number {
                return (value, passed.and(behind));
            }
            passed = passed.with(at, value);
            left = behind;
        }
        unreachable!()
    }

    /// The same cells, in the order of these numbers.
    pub fn arranged(self, numbers: &[u32]) -> Held<T>
        requires few { length self ≤ 7 }
        requires numbers { AreNumbersOf numbers.now self }
        ensures order { numbers_of result ≡ numbers.now }
        ensures same { (k : ℕ) → value_of result k ≡ value_of self k }
        ensures one { (cells : List (ℕ × T)) → numbers_of cells ≡ numbers.now → ((k : ℕ) → value_of cells k ≡ value_of self k) → result ≡ cells }
    {
        let mut done = Held::new();
        let mut left = self;
        for number in numbers {
            let (value, others) = left.take_out(*number);
            done = done.with(*number, value);
            left = others;
        }
        left.end();
        done
    }
}
