//! The names of an app's sources and readers, by number.

ghost use Rattle.std.specs.Prelude.{◌≡◌};
ghost use Rattle.app_tree.specs.View.{shape_of};
ghost use Rattle.app_tree.specs.Declarations.{node_declarations, source_name, reader_name};
ghost use Rattle.app_tree.specs.Named.{name_of_read};

use app_tree::{App, Read};
use read_text::name_of_read;
use std::alloc::Global;
use std::marker::Model;

/// By what names an app is written, and with which memory. Contracts see what the app's items declare.
#[derive(Drop)]
pub struct Names<'a> {
    alloc: Global,
    app: &'a App,
}

impl<'a> Model for Names<'a> {
    ghost use Rattle.std.specs.Prelude.{List};
    ghost use Rattle.app_tree.specs.View.{shape_of};
    ghost use Rattle.app_tree.specs.Declarations.{Declared, node_declarations};

    ghost Value = { List Declared };

    ghost view = { λ names. node_declarations (shape_of names.app.now).items };
}

impl<'a> Names<'a> {
    /// The names of this app.
    pub fn new(alloc: Global, app: &'a App) -> Names<'a>
        ensures { result ≡ node_declarations (shape_of app.now).items }
    {
        Names { alloc, app }
    }

    /// The allocator of what is written.
    pub fn alloc(&self) -> Global {
        self.alloc
    }

    /// The name of the source of this number.
    pub fn source(&self, number: u32) -> &'a str
        ensures { result.now ≡ source_name self.now number }
    {
        self.app.source_name(number)
    }

    /// The name of the reader of this number.
    pub fn reader(&self, number: u32) -> &'a str
        ensures { result.now ≡ reader_name self.now number }
    {
        self.app.reader_name(number)
    }

    /// The name of what is read.
    pub fn read(&self, read: Read) -> &'a str
        ensures { result.now ≡ name_of_read self.now read }
    {
        name_of_read(self.app, read)
    }
}
