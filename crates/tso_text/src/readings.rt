ghost use Rattle.std.specs.Prelude.{◌≡◌, ◌<◌, ◌≤◌, length, OnOk, IfOk, IfErr, vec_len};
ghost use Rattle.tso_ops.specs.Settings.{setting_of};
ghost use Rattle.tso_ops.specs.Values.{rows};
ghost use Rattle.tso_text.specs.Internal.Spelling.{push_last, items_of};
ghost use Rattle.tso_text.specs.Internal.Accepted.{AcceptsLine, AcceptsSaid, CanSay, IsLineRefusedFor, IsSaidRefusedFor};
ghost use Rattle.tso_text.specs.declared.faults.Why.{Why};

use crate::faults::Why;
use crate::forms::Form;
use crate::lines::Line;
use std::alloc::{AllocFailed, Global};
use tso_ops::{Setting, Tally};

/// The greatest number of processors.
const MAX_PROCESSORS: usize = 16;

/// What the lines so far say, and the tally of it.
#[derive(Drop)]
pub(crate) struct Reading<T: Form> {
    pub(crate) lists: Vec<Vec<T>>,
    pub(crate) tally: Tally,
}

impl<T: Form> Reading<T> {
    /// What no line says.
    pub(crate) fn new(alloc: Global, setting: &Setting) -> Result<Reading<T>, Why>
        ensures start { IfOk result (λ r. rows r.lists.items ≡ (T.format.grammar (setting_of setting.now)).start) }
        ensures keeps { IfOk result (λ r. T.keeps (setting_of setting.now) r.tally (items_of (rows r.lists.items))) }
        ensures few { IfOk result (λ r. length (rows r.lists.items) ≤ 16) }
        ensures refused { IfErr result (λ why. why ≡ Why.OutOfMemory) }
    {
        let (lists, tally) = T::start(alloc, setting)?;
        Ok(Reading { lists, tally })
    }

    /// Accepts the next line, and says whether it ends the text; or refuses it for its first fault.
    pub(crate) fn accept_line(&mut self, setting: &Setting, line: &[u8]) -> Result<bool, Why>
        requires keeps { T.keeps (setting_of setting.now) self.old.tally (items_of (rows self.old.lists.items)) }
        requires few { length (rows self.old.lists.items) ≤ 16 }
        ensures accepted { IfOk result (λ ended. AcceptsLine (T.format.grammar (setting_of setting.now)) (rows self.old.lists.items) line.now ended
            (rows self.new.lists.items)) }
        ensures keeps { OnOk result (T.keeps (setting_of setting.now) self.new.tally (items_of (rows self.new.lists.items))) }
        ensures few { OnOk result (length (rows self.new.lists.items) ≤ 16) }
        ensures refused { IfErr result (IsLineRefusedFor (T.format.grammar (setting_of setting.now)) (rows self.old.lists.items) line.now) }
    {
        let said = T::said_by(setting.order, line)?;
        self.accept(setting, said)
    }

    /// Accepts what the next line says, and says whether it ends the text; or refuses it for its first fault.
    fn accept(&mut self, setting: &Setting, said: Line<T>) -> Result<bool, Why>
        requires said { CanSay (T.format.grammar (setting_of setting.now)) said }
        requires keeps { T.keeps (setting_of setting.now) self.old.tally (items_of (rows self.old.lists.items)) }
        requires few { length (rows self.old.lists.items) ≤ 16 }
        ensures accepted { IfOk result (λ ended. AcceptsSaid (T.format.grammar (setting_of setting.now)) (rows self.old.lists.items) said ended
            (rows self.new.lists.items)) }
        ensures keeps { OnOk result (T.keeps (setting_of setting.now) self.new.tally (items_of (rows self.new.lists.items))) }
        ensures few { OnOk result (length (rows self.new.lists.items) ≤ 16) }
        ensures refused { IfErr result (IsSaidRefusedFor (T.format.grammar (setting_of setting.now)) (rows self.old.lists.items) said) }
    {
        match said {
            Line::Proc => {
                if self.lists.len() >= MAX_PROCESSORS {
                    return Err(Why::TooManyProcessors);
                }
                let alloc = *self.lists.allocator();
                self.lists.push(Vec::new(alloc))?;
                Ok(false)
            }
            Line::Item(item) => {
                if self.lists.is_empty() {
                    return Err(Why::BeforeProc);
                }
                item.admit(setting, &mut self.tally)?;
                push_last(&mut self.lists, item)?;
                Ok(false)
            }
            Line::End => Ok(true),
        }
    }
}

/// Appends an item to the last list.
fn push_last<T: Copy>(lists: &mut Vec<Vec<T>>, item: T) -> Result<(), AllocFailed<T>>
    requires { 0 < vec_len lists.old }
    ensures { OnOk result (rows lists.new.items ≡ push_last (rows lists.old.items) item) }
{
    let last = lists.len() - 1;
    lists[last].push(item)
}
