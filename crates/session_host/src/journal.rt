ghost use Rattle.std.specs.Prelude.{◌≡◌, ◌<◌, ◌≤◌, ◌++◌, ◌∷◌, [], length, filter, false, OnOk, OnErr};
ghost use Rattle.session_model.specs.Journal.{is_full, text_bytes};
ghost use Rattle.session_host.specs.Journaling.{bytes_of, is_item};

use rx_value::Memory;
use session_model::{EVENT_LIMIT, Event, JOURNAL_TEXT_LIMIT};
use std::alloc::Global;
use std::marker::Model;

/// The events of a session, in the order in which they came.
#[derive(Debug, Drop)]
pub struct Journal {
    events: Vec<Event>,
    /// Those of the texts.
    bytes: u128,
}

impl Model for Journal {
    ghost use Rattle.std.specs.Prelude.{◌≡◌, vec_capacity};
    ghost use Rattle.session_model.specs.Journal.{text_bytes};
    ghost use Rattle.session_host.specs.Journaling.{Journaling};

    ghost Value = { Journaling };

    ghost view = { λ j. record { events = j.events.items; room = vec_capacity j.events } };

    ghost invariant = { λ j. j.bytes ≡ text_bytes j.events.items };
}

/// The bytes of an event's text.
fn bytes_of(event: &Event) -> usize
    ensures { result ≡ bytes_of event.now }
{
    match event {
        Event::Text(text) => text.len(),
        _ => 0,
    }
}

fn is_item(event: &Event) -> bool
    ensures { result ≡ is_item event.now }
{
    matches!(event, Event::Text(_) | Event::Other)
}

impl Journal {
    /// No event.
    pub fn new(alloc: Global) -> Journal
        ensures { result.events ≡ [] }
    {
        Journal {
            events: Vec::new(alloc),
            bytes: 0,
        }
    }

    /// The events, from the first.
    pub fn events(&self) -> &[Event]
        ensures { result.now ≡ self.now.events }
    {
        self.events.as_slice()
    }

    /// Whether it takes no further event: it has 250,000, or its texts have more than 16,777,216 bytes.
    pub fn is_full(&self) -> bool
        ensures { result ≡ is_full self.now.events }
    {
        self.events.len() >= EVENT_LIMIT || self.bytes > JOURNAL_TEXT_LIMIT as u128
    }

    /// How many of the events are items of the client.
    pub fn item_count(&self) -> usize
        ensures { result ≡ length (filter is_item self.now.events) }
    {
        self.events.iter().filter(|event| is_item(event)).count()
    }

    /// Takes room for one more event, so that the next `push` finds it.
    pub(crate) fn reserve(&mut self) -> Result<(), Memory>
        ensures events { self.new.events ≡ self.old.events }
        ensures ok { OnOk result (length self.new.events < self.new.room) }
    {
        match self.events.reserve(1) {
            Ok(()) => Ok(()),
            Err(_) => Err(Memory),
        }
    }

    /// Puts an event behind the others. Room was taken for it, and the journal isn't full.
    #[tactic(auto, using(crate::proofs::JournalGrows::text_bytes_more))]
    pub(crate) fn push(&mut self, event: Event)
        requires room { length self.old.events < self.old.room }
        requires full { is_full self.old.events ≡ false }
        ensures { self.new.events ≡ self.old.events ++ event ∷ [] }
    {
        self.bytes += bytes_of(&event) as u128;
        self.events.push_reserved(event);
    }
}
