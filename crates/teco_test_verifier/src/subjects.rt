//! Tables of cases, and what the tests share of libraries and texts.
use std::alloc::Global;
use std::process::Abort;
use std::test::*;
use teco_base::LIMIT;
use teco_library::Library;

/// A row of a table.
pub trait TableRow {
    /// Is what the row says so? None where memory was refused.
    fn holds(&self, alloc: Global) -> Option<bool>;
}

/// Is a row so? It is tried once more where memory was refused, so that tests also hold where one allocation fails.
pub fn is_so<C: TableRow>(case: &C, alloc: Global) -> bool {
    match case.holds(alloc) {
        Some(holds) => holds,
        None => case.holds(alloc) == Some(true),
    }
}

/// Asserts each row.
pub fn expect_all<C: TableRow>(rt: &impl Abort, alloc: Global, rows: &[C]) {
    for (row, case) in rows.iter().enumerate() {
        assert!(rt; is_so(case, alloc), "row {row}");
    }
}

/// Fails, and says of what, where this is false.
pub fn expect(rt: &impl Abort, is_so: bool, what: &str) {
    assert!(rt; is_so, "{what}");
}

/// The library of a file, if it is one.
pub fn library_of(alloc: Global, file: &[u8]) -> Option<Library> {
    if file.len() > LIMIT {
        return None;
    }
    Library::read(alloc, file).ok()
}
