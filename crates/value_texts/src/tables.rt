//! The numbers of events by their names.
ghost use Rattle.std.specs.Prelude.{◌≡◌, ◌^◌, ◌<◌, IfOk, IfSome, IfNone};
ghost use Rattle.value_texts.specs.declared.names.EventName.{EventName};
ghost use Rattle.value_texts.specs.Names.{event_name_text};
ghost use Rattle.value_texts.specs.Spelling.{event_named};
ghost use Rattle.value_texts.specs.Internal.LineValues.{event_said, source_said};
ghost use Rattle.value_texts.specs.Internal.Tables.{HasNumbers, name_key};

use crate::names::EventName;
use crate::refusals::ValueTextRefusal;
use line_text::number_of;
use std::alloc::Global;
use std::collections::HashMap;
use std::marker::Model;
use tso_ops::OutOfMemory;

/// The names of events, and the number of the first of each name.
#[derive(Drop)]
pub(crate) struct NumberedNames<'n> {
    names: &'n [EventName],
    numbers: HashMap<(usize, usize), usize>,
}

impl<'n> Model for NumberedNames<'n> {
    ghost use Rattle.std.specs.Prelude.{List};
    ghost use Rattle.value_texts.specs.declared.names.EventName.{EventName};
    ghost use Rattle.value_texts.specs.Internal.Tables.{HasNumbers};

    ghost Value = { List EventName };

    ghost view = { λ n. n.names.now };

    ghost invariant = { λ n. HasNumbers n.names.now n.numbers };
}

impl<'n> NumberedNames<'n> {
    /// These names and their numbers. OutOfMemory where an allocation was refused.
    pub(crate) fn new(
        alloc: Global,
        names: &'n [EventName],
    ) -> Result<NumberedNames<'n>, OutOfMemory>
        ensures { IfOk result (λ numbered. numbered ≡ names.now) }
    {
        let numbers = list_numbers(alloc, names)?;
        Ok(NumberedNames { names, numbers })
    }

    /// The number of the first event that a token names.
    fn number(&self, token: &[u8]) -> Option<usize>
        ensures { result ≡ event_named self.now token.now }
    {
        let name = read_name(token)?;
        self.numbers.get(&key_of(name)).copied()
    }

    /// The number of the first event that a token names, or NoEvent.
    pub(crate) fn event(&self, token: &[u8]) -> Result<usize, ValueTextRefusal>
        ensures { result ≡ event_said self.now token.now }
    {
        self.number(token).ok_or(ValueTextRefusal::NoEvent)
    }

    /// That of a source, or 0 of the first value.
    #[tactic(auto, unfolding(crate::specs::Internal::LineValues::source_said))]
    pub(crate) fn source(&self, token: &[u8]) -> Result<usize, ValueTextRefusal>
        ensures { result ≡ source_said self.now token.now }
    {
        if token == b"init".as_slice() {
            Ok(0)
        } else {
            self.event(token)
        }
    }
}

/// The number of the first event of each name.
fn list_numbers(
    alloc: Global,
    names: &[EventName],
) -> Result<HashMap<(usize, usize), usize>, OutOfMemory>
    ensures { IfOk result (HasNumbers names.now) }
{
    let mut numbers = HashMap::new(alloc);
    for (k, name) in names.iter().enumerate() {
        let key = key_of(*name);
        if !numbers.contains_key(&key) {
            numbers.insert(key, k + 1)?;
        }
    }
    Ok(numbers)
}

/// The key of a name: its line, and which half of a swap it is.
fn key_of(name: EventName) -> (usize, usize)
    ensures { result ≡ name_key name }
{
    let half = if name.is_swap_store { 1 } else { 0 };
    (name.line, half)
}

/// The name that a token spells.
fn read_name(token: &[u8]) -> Option<EventName>
    ensures some { IfSome result (λ name. (token.now ≡ event_name_text name) × (name.line < 2 ^ 64)) }
    ensures none { IfNone result ((name : EventName) → name.line < 2 ^ 64 → token.now ≡ event_name_text name → ⊥) }
{
    match token.strip_suffix(b"'".as_slice()) {
        Some(line) => Some(EventName {
            line: number_of(line)? as usize,
            is_swap_store: true,
        }),
        None => Some(EventName {
            line: number_of(token)? as usize,
            is_swap_store: false,
        }),
    }
}
