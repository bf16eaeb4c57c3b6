//! A session over a script in memory, to which items are given while it goes on.

ghost use Rattle.std.specs.Prelude.{◌≡◌, false, OnOk, OnErr, IfSome};
ghost use Rattle.rx_ports.specs.declared.link.LinkItem.TheVariants.{Text};
ghost use Rattle.session_host.specs.Opening.{with_script, pushed, closed};

use crate::hosted::Hosted;
use rx_ports::TapeLink;
use rx_value::{Memory, RxText};

impl Hosted<TapeLink> {
    /// Puts a text at the end of the link's script, which has not ended. Without memory all stays, and the text is lost.
    pub fn push(&mut self, item: RxText) -> Result<(), Memory>
        requires { IfSome self.old.link.script (λ s. s.ended ≡ false) }
        ensures ok { OnOk result (self.new ≡ with_script (pushed (Text item)) self.old) }
        ensures err { OnErr result (self.new ≡ self.old) }
    {
        self.host.link.push(item)
    }

    /// Ends the link's script: no item comes behind those that are left.
    pub fn end(&mut self)
        ensures { self.new ≡ with_script closed self.old }
    {
        self.host.link.end();
    }
}
