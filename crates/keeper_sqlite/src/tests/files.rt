// What one keeper left in a file the next one finds there.
//
// Each call of a constructor stands in a function with no clause, so that no proof carries what it says of files.
use crate::SqliteKeeper;
use crate::tests::keepers::{answers_a_key_that_is_there, has_their_rows, settles_a_row_once};
use keeper::KeepRefusal;
use sqlite::{File, FileStore};
use std::alloc::Global;
use std::fs;
use std::process::Abort;
use std::test::Fail;

const FOLDER: &str = "keeper_sqlite_test";

const PATH: &str = "keeper_sqlite_test/rows.db";

type FileKeeper = SqliteKeeper<FileStore<File>>;

fn create(rt: &HostRuntime) -> Result<FileKeeper, KeepRefusal> {
    SqliteKeeper::create_at(rt, PATH)
}

fn open(rt: &HostRuntime) -> Result<FileKeeper, KeepRefusal> {
    SqliteKeeper::open_at(rt, PATH)
}

fn is_refused(keeper: Result<FileKeeper, KeepRefusal>) -> bool {
    let is_refused = keeper.is_err();
    drop(keeper);
    is_refused
}

fn leaves_rows(rt: &impl Abort, alloc: Global, keeper: Result<FileKeeper, KeepRefusal>) {
    let mut keeper = keeper.expect(rt, "the file is made");
    answers_a_key_that_is_there(rt, alloc, &mut keeper);
    settles_a_row_once(rt, alloc, &mut keeper);
    drop(keeper);
}

fn finds_rows(rt: &impl Abort, alloc: Global, keeper: Result<FileKeeper, KeepRefusal>) -> bool {
    let mut keeper = keeper.expect(rt, "the file is opened");
    let finds_rows = has_their_rows(rt, alloc, &mut keeper);
    drop(keeper);
    finds_rows
}

#[test]
fn rows_are_there_when_the_file_is_opened_again(rt: HostRuntime) -> Result<(), Fail> {
    let _ = fs::remove_dir_all(&rt, FOLDER);
    fs::create_dir(&rt, FOLDER)?;
    assert!(rt; is_refused(open(&rt)));
    leaves_rows(&rt, rt.alloc(), create(&rt));
    assert!(rt; is_refused(create(&rt)));
    assert!(rt; finds_rows(&rt, rt.alloc(), open(&rt)));
    fs::remove_dir_all(&rt, FOLDER)?;
    Ok(())
}
