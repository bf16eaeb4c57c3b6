ghost use Rattle.std.specs.Prelude.{◌≡◌, ◌++◌, IfOk, OnOk};
ghost use Rattle.app_tree.specs.Declarations.{node_declarations};
ghost use Rattle.app_tree.specs.Named.{name_of_read, named_form};
ghost use Rattle.app_tree.specs.View.{shape_of};
ghost use Rattle.read_text.specs.Spelling.{read_text, text_of_read};

use app_tree::{App, Read};
use rx_value::{Memory, RxText};
use std::alloc::Global;

/// The name of what is read; empty where the app has nothing of that number.
pub fn name_of_read(app: &App, read: Read) -> &str
    ensures { result.now ≡ name_of_read (node_declarations (shape_of app.now).items) read }
{
    match read {
        Read::Input(source) => app.source_name(source),
        Read::Value(source) => app.source_name(source),
        Read::Status(source) => app.source_name(source),
        Read::Result(source) => app.source_name(source),
        Read::Expr(reader) => app.reader_name(reader),
        Read::Width(reader) => app.reader_name(reader),
        Read::Height(reader) => app.reader_name(reader),
    }
}

/// Writes a name between two fixed texts. At want of memory a part of it may be written.
pub fn write_enclosed(before: &str, name: &str, after: &str, out: &mut RxText) -> Result<(), Memory>
    ensures { OnOk result (out.new ≡ out.old ++ (before.now ++ name.now ++ after.now)) }
{
    out.push_str(before)?;
    out.push_str(name)?;
    out.push_str(after)
}

/// Writes a read of what has this name. At want of memory a part of it may be written.
pub fn write_read(name: &str, read: Read, out: &mut RxText) -> Result<(), Memory>
    ensures { OnOk result (out.new ≡ out.old ++ read_text (named_form read) name.now) }
{
    match read {
        Read::Input(_) => write_enclosed("input$", name, "", out),
        Read::Value(_) => write_enclosed("", name, "()", out),
        Read::Expr(_) => write_enclosed("", name, "()", out),
        Read::Status(_) => write_enclosed("status(", name, ")", out),
        Read::Result(_) => write_enclosed("result(", name, ")", out),
        Read::Width(_) => write_enclosed("width(", name, ")", out),
        Read::Height(_) => write_enclosed("height(", name, ")", out),
    }
}

/// The text of a read, as an app file of this app has it.
pub fn text_of_read(alloc: Global, app: &App, read: Read) -> Result<RxText, Memory>
    ensures { IfOk result (λ text. text ≡ text_of_read (shape_of app.now) read) }
{
    let mut text = RxText::new(alloc);
    write_read(name_of_read(app, read), read, &mut text)?;
    Ok(text)
}
