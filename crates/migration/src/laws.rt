//! Laws of the migration, as contracts of functions that do nothing.
ghost use Rattle.std.specs.Prelude.{◌≡◌, ◌≤◌, ℕ};
ghost use Rattle.migration.specs.Migrating.{migration_writes};

/// Proves the device writes of a migration. It takes 15 on 1,024 pages, 21 on 1,030, and 3,087 at most.
pub fn costs()
    ensures least { migration_writes 1024 ≡ 15 }
    ensures some { migration_writes 1030 ≡ 21 }
    ensures most { (pages : ℕ) → pages ≤ 4096 → migration_writes pages ≤ 3087 }
{}
