//! Which rows a table has.
ghost use Rattle.std.specs.Prelude.{◌≡◌};
ghost use Rattle.kr_table.specs.DocumentFaults as spec;

/// Which rows a table has.
#[derive(Clone, Copy, Debug, PartialEq, Eq)]
pub enum Rows {
    /// The rows of format 1.
    Plain,
    /// The same, and `update`: those of format 2.
    Updates,
    /// The same, and `revive` and `insert-hit` with both sides, and `delete-miss` and `update-miss` with
    /// the side `next`: those of format 3, whose deletes leave ghosts. A delete has no side `next`, and
    /// only an insert has clauses with `own`.
    Ghosts,
}

impl Rows {
    /// The rows of a table whose deleted keys go at once, by whether it offers updates.
    pub fn new(updates: bool) -> Rows
        ensures { result ≡ spec.rows_of updates }
    {
        if updates { Rows::Updates } else { Rows::Plain }
    }

    /// Whether a table with these rows offers updates.
    pub fn has_updates(self) -> bool
        ensures { result ≡ spec.has_updates self }
    {
        match self {
            Rows::Plain => false,
            Rows::Updates | Rows::Ghosts => true,
        }
    }

    /// Whether deletes leave ghosts in a table with these rows.
    pub fn has_ghosts(self) -> bool
        ensures { result ≡ spec.has_ghosts self }
    {
        match self {
            Rows::Plain | Rows::Updates => false,
            Rows::Ghosts => true,
        }
    }
}
