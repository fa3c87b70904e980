//! Theorems over the definitions alone. Each is the contract of a function that does nothing.
ghost use Rattle.sem_mounts.specs.Laws.{BadLines, FirstCatalogues};

/// What some small catalogues say, and which line of a bad one is bad.
pub fn first_catalogues()
    ensures good { FirstCatalogues }
    ensures bad { BadLines }
{}
