//! What a disk's device did.
ghost use Rattle.std.specs.Prelude.{◌≡◌, ◌-◌, ◌++◌, ◌∷◌, [], IfOk, List, OnErr, OnOk, length, take};
ghost use Rattle.bag_tree.specs.declared.event.DeviceEvent.{DeviceEvent};
ghost use Rattle.bag_tree.specs.declared.event.DeviceEvent.TheVariants.{Rename, Write};

use bag_text::{Items, Text};
use bag_tree::DeviceEvent;
use std::alloc::{AllocError, Global};
use std::marker::Model;

/// What a disk's device did, in order.
#[derive(Debug, Drop)]
pub(crate) struct Trail {
    events: Vec<DeviceEvent>,
}

impl Model for Trail {
    ghost Value = { List DeviceEvent };

    ghost view = { λ trail. trail.events.items };
}

impl Trail {
    /// Nothing yet.
    pub(crate) fn new(alloc: Global) -> Trail
        ensures { result ≡ [] }
    {
        Trail {
            events: Vec::new(alloc),
        }
    }

    /// The events in their order.
    pub(crate) fn as_slice(&self) -> &[DeviceEvent]
        ensures { result.now ≡ self.now }
    {
        self.events.as_slice()
    }

    /// Notes an event before it is done.
    pub(crate) fn note(&mut self, event: DeviceEvent) -> Result<(), AllocError>
        ensures noted { OnOk result (self.new ≡ self.old ++ event ∷ []) }
        ensures refused { OnErr result (self.new ≡ self.old) }
    {
        self.events.push(event)?;
        Ok(())
    }

    /// Takes back the event that was noted last, since it wasn't done.
    pub(crate) fn take_back(&mut self)
        ensures { self.new ≡ take (length self.old - 1) self.old }
    {
        let _ = self.events.pop();
    }
}

/// That what stood at one path stands at another.
pub(crate) fn renamed(alloc: Global, from: &str, to: &str) -> Result<DeviceEvent, AllocError>
    ensures { IfOk result (λ event. event ≡ Rename from.now to.now) }
{
    let from = Text::from_str(alloc, from)?;
    let to = Text::from_str(alloc, to)?;
    Ok(DeviceEvent::Rename(from, to))
}

/// That bytes were written at the end of a file.
pub(crate) fn written(alloc: Global, path: &str, bytes: &[u8]) -> Result<DeviceEvent, AllocError>
    ensures { IfOk result (λ event. event ≡ Write path.now bytes.now) }
{
    let path = Text::from_str(alloc, path)?;
    let bytes = Items::from_vec(bytes.to_vec(alloc)?);
    Ok(DeviceEvent::Write(path, bytes))
}
