//! Laws of chains of links. The function does nothing: its clause is the law.

ghost use Rattle.std.specs.Prelude.{ℕ, List, length, IsTrue};
ghost use Rattle.names.specs.Names.{Name};
ghost use Rattle.names.specs.Links.{Link, leads};

/// Where a chain of links, however long, leads from one name to another, one with as many links as there are does.
pub fn chains()
    ensures { (links : List Link) (steps : ℕ) (from to : Name) →
        IsTrue (leads links steps from to) → IsTrue (leads links (length links) from to) }
{}
