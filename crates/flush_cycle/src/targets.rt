ghost use Rattle.std.specs.Prelude.{◌≡◌, codes};
ghost use Rattle.std.specs.Option.{option_map};
ghost use Rattle.app_tree.specs.View.{shape_of};
ghost use Rattle.session_model.specs.Apply.{after_front, before_end, clientdata_output, hidden, target_of};
ghost use Rattle.flush_cycle.specs.inner.Targets.{target_is, height_or_hidden, output_target, output_name};

use app_tree::App;

/// What a name of a client message stands for.
#[derive(Clone, Copy, Debug, PartialEq, Eq)]
pub enum Target {
    /// An input, by its source number.
    Input(u32),
    /// The width of an output, by its reader number.
    Width(u32),
    Height(u32),
    /// Whether an output is hidden.
    Hidden(u32),
}

fn after_front<'a>(front: &str, name: &'a str) -> Option<&'a str>
    ensures { option_map (λ s. s.now) result ≡ after_front front.now name.now }
{
    name.strip_prefix(front)
}

fn before_end<'a>(end: &str, name: &'a str) -> Option<&'a str>
    ensures { option_map (λ s. s.now) result ≡ before_end end.now name.now }
{
    name.strip_suffix(end)
}

fn output_name<'a>(end: &str, name: &'a str) -> Option<&'a str>
    ensures { option_map (λ s. s.now) result ≡ output_name end.now name.now }
{
    match after_front(".clientdata_output_", name) {
        Some(rest) => before_end(end, rest),
        None => None,
    }
}

/// The reader number of the output NAME of which `.clientdata_output_NAME` and this end tell.
fn clientdata_output(app: &App, end: &str, name: &str) -> Option<u32>
    ensures { result ≡ clientdata_output end.now name.now (shape_of app.now).items }
{
    match output_name(end, name) {
        Some(output) => app.output_number(output),
        None => None,
    }
}

fn hidden(app: &App, name: &str) -> Option<Target>
    ensures { option_map target_is result
        ≡ option_map hidden (clientdata_output (codes "_hidden") name.now (shape_of app.now).items) }
{
    match clientdata_output(app, "_hidden", name) {
        Some(number) => Some(Target::Hidden(number)),
        None => None,
    }
}

fn height_or_hidden(app: &App, name: &str) -> Option<Target>
    ensures { option_map target_is result ≡ height_or_hidden name.now (shape_of app.now).items }
{
    match clientdata_output(app, "_height", name) {
        Some(number) => Some(Target::Height(number)),
        None => hidden(app, name),
    }
}

fn output_target(app: &App, name: &str) -> Option<Target>
    ensures { option_map target_is result ≡ output_target name.now (shape_of app.now).items }
{
    match clientdata_output(app, "_width", name) {
        Some(number) => Some(Target::Width(number)),
        None => height_or_hidden(app, name),
    }
}

/// What this name stands for; nothing where it is ignored.
pub fn target_of(app: &App, name: &str) -> Option<Target>
    ensures { option_map target_is result ≡ target_of name.now (shape_of app.now).items }
{
    match app.input_number(name) {
        Some(source) => Some(Target::Input(source)),
        None => output_target(app, name),
    }
}
