//! What a table is made for: cells and actors by number, and the changes that are its events.

/// A core is its ghost members and its law.
pub trait Core {
    /// What a cell holds.
    type Cell: Drop;

    /// Who takes cells, and changes them.
    type Actor;

    /// What the list in the cell of the log is made of.
    type Entry;

    ghost use Rattle.std.specs.Prelude.{ℕ, List};
    ghost use Rattle.turn_table.specs.Law.{IsLawful, Sight};

    // What holds between any two events of all cells and actors, a held cell counting with its holder.
    ghost invariant: { List Self.Cell → List Self.Actor → Type 0 };

    // The cell that the list is read off, and the list in it. Each event keeps or extends the list.
    ghost log_at: { ℕ };

    ghost log: { Self.Cell → List Self.Entry };

    // What is one event: what the change sees, the new values of the held cells, the number of the actor, and the actor
    // before and after.
    ghost change: { Sight Self.Cell Self.Actor → List (ℕ × Self.Cell) → ℕ → Self.Actor → Self.Actor → Type 0 };

    // The cells that an actor must keep, and which actors are idle.
    ghost needs: { Self.Actor → ℕ → Type 0 };

    ghost idle: { Self.Actor → Type 0 };

    ghost idle_free: { (a : Self.Actor) (k : ℕ) → idle a → needs a k → ⊥ };

    ghost lawful: { IsLawful invariant log_at log needs change };
}
