//! A reader of `bag-info.txt` that is given its lines one by one (RFC 8493, 2.2.2).
ghost use Rattle.std.specs.Prelude.{◌≡◌, ◌++◌, ◌∷◌, [], IfOk, OnOk, Some, None};
ghost use Rattle.bag_read.specs.InfoReader as reading;
ghost use Rattle.bag_read.specs.declared.info_reader.Above.TheVariants.{Nothing};

use crate::info::Element;
use crate::info_line::{LineKind, kind_of};
use crate::line_fault::{LineFault, Parsed};
use bag_text::{Code, Items, Rules, Text, trim};
use std::alloc::{AllocError, Global};
use std::mem;

const LINE_FEED: char = '\n';

/// What a continuation would belong to.
#[derive(Drop)]
pub(crate) enum Above {
    /// No line yet.
    Nothing,
    /// A line that should have begun an element and didn't.
    Refused,
    /// An element whose value may go on.
    Begun(Element),
}

/// What was read of the lines up to here.
#[derive(Drop)]
pub(crate) struct Reader {
    items: Items<Element>,
    faults: Items<LineFault>,
    above: Above,
}

impl Reader {
    pub(crate) fn new(alloc: Global) -> Reader
        ensures items { result.items ≡ [] }
        ensures faults { result.faults ≡ [] }
        ensures above { result.above ≡ Nothing }
    {
        Reader {
            items: Items::new(alloc),
            faults: Items::new(alloc),
            above: Above::Nothing,
        }
    }

    /// Reads the next line.
    pub(crate) fn read_line(
        &mut self,
        alloc: Global,
        rules: Rules,
        number: u64,
        line: &str,
    ) -> Result<(), AllocError>
        ensures { OnOk result (self.new ≡ reading.after_line rules self.old number line.now) }
    {
        match kind_of(rules, line) {
            LineKind::Blank => Ok(()),
            LineKind::Continuation => self.continue_with(alloc, number, line),
            LineKind::First { label, part } => self.begin(alloc, number, label, part),
            LineKind::Faulty => self.refuse(alloc, number),
        }
    }

    /// All that was read, once there are no more lines.
    pub(crate) fn finish(self, alloc: Global) -> Result<Parsed<Element>, AllocError>
        ensures items { IfOk result (λ parsed.
            parsed.items ≡ self.items ++ reading.closed self.above) }
        ensures faults { IfOk result (λ parsed. parsed.faults ≡ self.faults) }
    {
        let Reader {
            mut items,
            faults,
            above,
        } = self;
        if let Above::Begun(element) = above {
            items.push(element)?;
        }
        Ok(Parsed { items, faults })
    }

    fn continue_with(&mut self, alloc: Global, number: u64, line: &str) -> Result<(), AllocError>
        ensures { OnOk result (self.new ≡ reading.continued self.old number line.now) }
    {
        match &mut self.above {
            Above::Nothing => push_fault(alloc, &mut self.faults, number),
            Above::Refused => Ok(()),
            Above::Begun(element) => push_part(alloc, &mut element.value, line),
        }
    }

    fn begin(
        &mut self,
        alloc: Global,
        number: u64,
        label: &str,
        part: &str,
    ) -> Result<(), AllocError>
        ensures { OnOk result
            (self.new ≡ reading.begun self.old number (Some (label.now, part.now))) }
    {
        let element = Element {
            line: number,
            label: Text::from_str(alloc, label)?,
            value: Text::from_str(alloc, trim(part))?,
        };
        self.close(Above::Begun(element))
    }

    fn refuse(&mut self, alloc: Global, number: u64) -> Result<(), AllocError>
        ensures { OnOk result (self.new ≡ reading.begun self.old number None) }
    {
        push_fault(alloc, &mut self.faults, number)?;
        self.close(Above::Refused)
    }

    /// Closes the element that is open, and opens what comes next.
    fn close(&mut self, next: Above) -> Result<(), AllocError>
        ensures items { OnOk result
            (self.new.items ≡ self.old.items ++ reading.closed self.old.above) }
        ensures faults { OnOk result (self.new.faults ≡ self.old.faults) }
        ensures above { OnOk result (self.new.above ≡ next) }
    {
        match mem::replace(&mut self.above, next) {
            Above::Begun(element) => self.items.push(element),
            Above::Nothing | Above::Refused => Ok(()),
        }
    }
}

fn push_fault(alloc: Global, faults: &mut Items<LineFault>, number: u64) -> Result<(), AllocError>
    ensures { OnOk result (faults.new ≡ faults.old ++ reading.wrong number ∷ []) }
{
    faults.push(LineFault {
        line: number,
        code: Code::InfoLine,
        detail: Text::empty(alloc),
    })
}

/// Puts one more part at the end of a value, which grows in place.
fn push_part(alloc: Global, value: &mut Text, part: &str) -> Result<(), AllocError>
    ensures { OnOk result (value.new ≡ reading.with_part value.old part.now) }
{
    let mut text = match mem::replace(value, Text::empty(alloc)).into_string() {
        Ok(string) => string,
        Err(text) => String::from_str(alloc, text.as_str())?,
    };
    text.push(LINE_FEED)?;
    text.push_str(trim(part))?;
    *value = Text::from_string(text);
    Ok(())
}
