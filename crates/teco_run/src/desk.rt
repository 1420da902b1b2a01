//! What elements work on.

use std::alloc::Global;
use std::marker::Model;
use teco_editor::Editor;
use teco_find::LastPattern;
use teco_hosts::Pages;
use teco_text::TextStore;

/// What elements work on: the editor, what it has open, and the pattern of the last search. Further
/// memory comes from `alloc`.
#[derive(Drop)]
pub struct Desk<T: TextStore> {
    pub editor: Editor<T>,
    pub pages: Pages,
    pub last: LastPattern,
    pub alloc: Global,
}

impl<T: TextStore> Model for Desk<T> {
    ghost use Rattle.teco_run.specs.Holdings.{Holdings};

    ghost Value = { Holdings };

    ghost view = { λ d. record { kept = d.editor; held = d.pages } };
}
