//! What a host of the system's files does step by step with outputs and inputs, and what is then found in their folder.
use crate::scratch::*;
use std::alloc::Global;
use std::fs;
use std::fs::{DirEntry, Permissions};
use std::os::unix::fs::{PermissionsExt, symlink};
use teco_pages::{
    Backup, Closed, Closing, FileHost, FolderFiles, Handling, Host, ProcessFacts, remove_strays,
};

const FOLDER: &str = "somleut_test_outputs";

// The file that the steps are about, and the name that it is kept under.
const PATH: &str = "somleut_test_outputs/out";

const KEPT: &str = "somleut_test_outputs/out.old";

// How outputs are closed.
fn closing_of(word: &str) -> Closing {
    match word {
        "compared" => Closing::Compares,
        "any" => Closing::Replaces,
        _ => Closing::ReplacesOther,
    }
}

// Is it set how outputs are closed, that files are edited in place, or kept where they are replaced?
fn is_set(rt: &HostRuntime, host: &mut FileHost<HostRuntime>, word: &str, text: &str) -> bool {
    let backup = match String::from_str(rt.alloc(), ".old") {
        Ok(suffix) => Ok(suffix),
        Err(_) => String::from_str(rt.alloc(), ".old"),
    };
    match (word, backup) {
        ("closing", _) => host.set_closing(closing_of(text)),
        ("edit", _) => host.set_handling(Handling {
            closing: closing_of(text),
            in_place: true,
            is_durable: false,
        }),
        (_, Ok(suffix)) => host.set_backup(Backup {
            suffix,
            replaces: text == "again",
        }),
        _ => return false,
    }
    true
}

// Is the file read to its end, in one read?
fn read_on(host: &mut FileHost<HostRuntime>) -> bool {
    let mut room = [0; 64];
    host.read(&mut room).is_ok() && matches!(host.read(&mut room), Ok(0))
}

// Is the file another now?
fn put_other(rt: &HostRuntime, bytes: &[u8]) -> bool {
    fs::rename(rt, PATH, "somleut_test_moved").is_ok()
        && fs::write(rt, PATH, bytes).is_ok()
        && fs::remove_file(rt, "somleut_test_moved").is_ok()
}

// Is a step of the host done? A step is a word, with a text behind a colon.
fn is_done(rt: &HostRuntime, host: &mut FileHost<HostRuntime>, word: &str, text: &str) -> bool {
    match word {
        "closing" | "edit" | "keep" => is_set(rt, host, word, text),
        "open" => begin_in(host, PATH),
        "read" => begin_in(host, PATH) && read_on(host),
        "read-on" => read_on(host),
        "cannot-read" => host.open_in(PATH.as_bytes()).is_err(),
        "begin" => begin_out(host, PATH, text.as_bytes()),
        "cannot-begin" => host.open_out(PATH.as_bytes()).is_err(),
        "cannot-begin-other" => host.open_out(b"somleut_test_outputs/other").is_err(),
        "close" => host.close_out().is_ok(),
        "cannot-close" => host.close_out().is_err(),
        "drop" => host.drop_out().is_ok(),
        "changed" => matches!(host.closed(), Some(Closed::Changed)),
        "same" => matches!(host.closed(), Some(Closed::Same)),
        _ => is_so(rt, word, text),
    }
}

// Is a step beside the host done, or that found?
fn is_so(rt: &HostRuntime, word: &str, text: &str) -> bool {
    let bytes = text.as_bytes();
    match word {
        "put" => fs::write(rt, PATH, bytes).is_ok(),
        "put-other" => put_other(rt, bytes),
        "put-kept" => fs::write(rt, KEPT, bytes).is_ok(),
        "remove-kept" => fs::remove_file(rt, KEPT).is_ok(),
        "private" => fs::set_permissions(rt, PATH, Permissions::from_mode(0o640)).is_ok(),
        "is-private" => mode(rt, PATH) == Some(0o640),
        "make-folder" => fs::create_dir(rt, PATH).is_ok(),
        "remove-folder" => fs::remove_dir(rt, PATH).is_ok(),
        "is-missing" => is_missing(rt, PATH),
        "has" => is_file(rt, PATH, bytes),
        "kept" => is_file(rt, KEPT, bytes),
        "alone" => is_alone(rt, FOLDER, PATH, bytes),
        "two-names" => has_names(rt, FOLDER, 2),
        _ => false,
    }
}

// The step that is not done by one host. A close that is refused memory loses the output, and nothing else.
fn step_not_done<'a>(rt: &HostRuntime, steps: &'a str) -> Option<&'a str> {
    let mut host = host(rt);
    for step in steps.split(" ") {
        let (word, text) = step.split_once(":").unwrap_or((step, ""));
        if !is_done(rt, &mut host, word, text) {
            let is_lost = word == "close" && is_refused(&host) && !is_missing(rt, PATH);
            let is_closed = is_lost && host.write(b"none is open").is_err();
            return Some(if is_closed { "refused" } else { step });
        }
    }
    None
}

// Steps in an empty folder, and the bytes of the file when the host is gone. It is then alone there.
const STEPS: &[&str] = &[
    // An output takes its name when it is closed; a file keeps its permissions, and its bytes until then. One is open.
    "begin:new is-missing close alone:new begin:newer has:new => new",
    "put:old private begin:newer cannot-begin-other close is-private => newer",
    // A dropped output leaves no trace, nor does the last one, which is open where the host goes.
    "put:old begin:new two-names drop alone:old begin:new => old",
    // An output that cannot be closed, since a folder takes the name first, is gone.
    "begin:new make-folder cannot-close remove-folder begin:new close => new",
    // Outputs that equal their target leave it; those that are only compared are dropped, and can't be closed.
    "put:same closing:other begin:same close same => same",
    "put:same closing:compared begin:new drop changed => same",
    "put:same closing:compared begin:sam drop changed => same",
    "put:same closing:compared begin:new cannot-close => same",
    "put:same closing:other begin:new close changed => new",
    "put:new closing:any begin:new close changed => new",
    // A file is replaced in place by what is written, and stays where that is what was read.
    "edit put:old private read begin:new close changed is-private => new",
    "edit put:new read begin:new close same alone:new read begin:ne close changed => ne",
    "edit:compared put:old read begin:new drop changed read begin:old drop same => old",
    // What is written before the file is read is compared with it all the same.
    "edit put:old open begin:old read-on close same => old",
    // What was written to an output that was dropped counts for no other.
    "edit put:oldold read begin:old drop begin:old close changed => old",
    // Another file has the name when the output is opened, or when it is closed; or it is changed.
    "edit put:old read put-other:other cannot-begin read begin:new close => new",
    "edit put:old read begin:new put-other:another cannot-close => another",
    "edit put:old read begin:new put:longer cannot-close => longer",
    // A folder is no file to edit, and a file that is not there is none.
    "edit is-missing cannot-read make-folder cannot-read remove-folder put:old read => old",
    // A file that is replaced is kept with its permissions, in the place of no other file unless it may be.
    "edit keep put:old private read begin:new close kept:old is-private remove-kept => new",
    "edit keep put:new put-kept:old read begin:newer cannot-close kept:old remove-kept => new",
    "edit keep:again put:new put-kept:old read begin:newer close kept:new remove-kept => newer",
    "edit keep put:old put-kept:older read begin:old close same kept:older remove-kept => old",
];

#[test]
fn outputs_are_closed_dropped_and_put_in_place(rt: HostRuntime) {
    for row in STEPS {
        let (steps, left) = row.split_once(" => ").unwrap_or((*row, ""));
        assert!(rt; scratch(&rt, FOLDER));
        let mut step = step_not_done(&rt, steps);
        if step == Some("refused") && scratch(&rt, FOLDER) {
            step = step_not_done(&rt, steps);
        }
        assert!(rt; step.is_none(), "{row}: {step:?}");
        assert!(rt; is_alone(&rt, FOLDER, PATH, left.as_bytes()), "{row}");
    }
    assert!(rt; remove(&rt, FOLDER));
}

// Makes a file with set-id bits, which the system may refuse, and a link to it.
fn put_set_id(rt: &HostRuntime, path: &str, link: &str) -> bool {
    fs::write(rt, path, b"old").is_ok()
        && fs::set_permissions(rt, path, Permissions::from_mode(0o6751)).is_ok()
        && symlink(rt, "file", link).is_ok()
}

fn is_link(rt: &HostRuntime, path: &str) -> bool {
    matches!(fs::symlink_metadata(rt, path), Ok(metadata) if metadata.is_symlink())
}

#[test]
fn a_link_is_followed_and_set_id_bits_are_kept(rt: HostRuntime) {
    let path = "somleut_test_link/file";
    let link = "somleut_test_link/link";
    assert!(rt; scratch(&rt, "somleut_test_link") && put_set_id(&rt, path, link));
    let old = mode(&rt, path);
    assert!(rt; put_whole(&mut host(&rt), link, b"new") && old.is_some());
    assert!(rt; is_link(&rt, link) && is_file(&rt, path, b"new") && mode(&rt, path) == old);
    assert!(rt; remove(&rt, "somleut_test_link"));
}

// Another file takes the place of the one of an output, which is dropped, or can't be closed. Is it left?
fn is_left(rt: &HostRuntime, host: &mut FileHost<HostRuntime>, path: &str, drops: bool) -> bool {
    fs::rename(rt, path, "somleut_test_taken/moved").is_ok()
        && fs::write(rt, path, b"another").is_ok()
        && ((drops && host.drop_out().is_ok()) || (!drops && host.close_out().is_err()))
        && is_file(rt, path, b"another")
        && is_missing(rt, "somleut_test_taken/out")
}

// The first name in a folder, if it has one.
fn first_in(rt: &HostRuntime, folder: &str) -> Option<DirEntry> {
    match fs::read_dir(rt, folder) {
        Ok(mut names) => match names.next() {
            Some(Ok(entry)) => Some(entry),
            _ => None,
        },
        Err(_) => None,
    }
}

// Is the file left that takes the place of the one beside the target?
fn is_another_left(rt: &HostRuntime, is_dropped: bool) -> bool {
    let mut host = host(rt);
    let folder = "somleut_test_taken";
    let is_begun = scratch(rt, folder) && begin_out(&mut host, "somleut_test_taken/out", b"new");
    match first_in(rt, folder) {
        Some(entry) => is_begun && is_left(rt, &mut host, entry.path().as_str(), is_dropped),
        None => false,
    }
}

// The second time at the latest: memory may be refused the first time.
#[test]
fn the_file_of_another_is_left(rt: HostRuntime) {
    for is_dropped in [false, true] {
        let is_so = is_another_left(&rt, is_dropped) || is_another_left(&rt, is_dropped);
        assert!(rt; is_so, "{is_dropped}");
    }
    assert!(rt; remove(&rt, "somleut_test_taken"));
}

// The name of a file beside a target, with another number of a process in it: more than any has.
fn stray_of(alloc: Global, name: &str) -> Option<String> {
    let (_, behind) = name.strip_prefix(".somleut-")?.split_once('-')?;
    format!(in alloc; "somleut_test_strays/.somleut-4194305-{behind}").ok()
}

// How many files that processes left are removed in a folder.
fn swept(rt: &HostRuntime, folder: &str) -> Option<usize> {
    let facts = ProcessFacts::read(rt, rt.alloc());
    let mut files = FolderFiles::open(rt, rt.alloc(), folder, facts).ok()?;
    remove_strays(rt.alloc(), &mut files).ok()
}

// Is a file removed that a process left which is gone, and no other?
fn is_stray_removed(rt: &HostRuntime, folder: &str, stray: &str) -> bool {
    fs::write(rt, stray, b"left").is_ok()
        && fs::write(rt, "somleut_test_strays/.somleut-1", b"no stray").is_ok()
        && swept(rt, folder) == Some(1)
        && is_missing(rt, stray)
        && swept(rt, folder) == Some(0)
}

// Is what a process left removed that is gone, and not what this one has open?
fn is_swept(rt: &HostRuntime, folder: &str) -> bool {
    let mut host = host(rt);
    let is_begun = scratch(rt, folder) && begin_out(&mut host, "somleut_test_strays/out", b"new");
    let Some(entry) = first_in(rt, folder) else {
        return false;
    };
    match stray_of(rt.alloc(), entry.file_name()) {
        Some(stray) => is_begun && is_stray_removed(rt, folder, &stray),
        None => false,
    }
}

#[test]
fn what_killed_runs_left_is_removed(rt: HostRuntime) {
    let folder = "somleut_test_strays";
    let is_so = is_swept(&rt, folder) || is_swept(&rt, folder);
    assert!(rt; is_so && remove(&rt, folder));
}
