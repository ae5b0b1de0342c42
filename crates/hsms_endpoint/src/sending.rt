//! Messages to send.

ghost use Rattle.std.specs.Prelude.{◌≡◌, ◌<◌, ◌+◌, ◌≤◌, length, Some, None, [], ◌∷◌, option_map, OnOk, IfOk, IfSome};
ghost use Rattle.secs_item.specs.Item.{view};
ghost use Rattle.secs_item.specs.Encoding.{IsText};
ghost use Rattle.secs_text.specs.View.{content};
ghost use Rattle.hsms_endpoint.specs.Action.{asks};
ghost use Rattle.hsms_endpoint.specs.Frame.{text_of as text_of_item, is_within_depth as is_item_within_depth, fitting_text as fitting_text_of, message_frame as message_frame_of};
ghost use Rattle.hsms_endpoint.specs.Invariant.{IsSound};
ghost use Rattle.hsms_endpoint.specs.InnerInvariant.{Completes};
ghost use Rattle.hsms_endpoint.specs.InnerSending.{IsSpelt, hindrance_of};

use crate::fault::EndFault;
use crate::state::State;
use hsms_frame::{Frame, HEADER_LENGTH, data_header};
use hsms_machine::Entry;
use secs_item::{Item, ItemFault, encode, nesting};
use secs_text::Message;
use std::alloc::{AllocError, Global};

impl State {
    /// Returns the first error that prevents a message from being sent, except for a text that is too long.
    pub fn hindrance(&self, message: &Message) -> Option<EndFault>
        ensures { result ≡ hindrance_of self.now (content message.now) }
    {
        if !self.is_selected() {
            Some(EndFault::NotSelected)
        } else if message.function() % 2 == 0 {
            Some(EndFault::NotPrimary)
        } else if message.stream() == 9 {
            Some(EndFault::Nine)
        } else if message.wait() && 64 <= self.tracker.own_open() {
            Some(EndFault::Full)
        } else if !self.is_within_depth(message.item()) {
            Some(EndFault::TooDeep)
        } else {
            None
        }
    }

    fn is_within_depth(&self, item: Option<&Item>) -> bool
        ensures { result ≡ is_item_within_depth self.now.settings.depth (option_map (λ i. view i.now) item.entry) }
    {
        match item {
            Some(item) => nesting(item) <= self.settings.depth() as usize,
            None => true,
        }
    }

    /// Returns the text of an item if it is within the depth and the maximum frame size.
    pub fn fitting_text(&self, item: Option<&Item>) -> Result<Option<Vec<u8>>, AllocError>
        ensures value { IfOk result (λ text. option_map (λ octets. octets.items) text ≡ fitting_text_of self.now.settings (option_map (λ i. view i.now) item.entry)) }
        ensures encoded_bytes { IfOk result (λ text. IfSome text (λ octets. IsText self.now.settings.depth octets.items)) }
        ensures fits { IfOk result (λ text. IfSome text (λ octets. 10 + length octets.items ≤ self.now.settings.max)) }
    {
        if !self.is_within_depth(item) {
            return Ok(None);
        }
        match text_of(self.alloc, item)? {
            Some(text) if text.len() <= self.settings.max() as usize - HEADER_LENGTH => {
                Ok(Some(text))
            }
            _ => Ok(None),
        }
    }

    /// Sends a message with its text.
    pub fn send(
        &mut self,
        entries: &mut Vec<Entry>,
        message: &Message,
        text: Vec<u8>,
    ) -> Result<(), AllocError>
        requires sound { IsSound self.old }
        requires unhindered { hindrance_of self.old (content message.now) ≡ None }
        requires fits { fitting_text_of self.old.settings (content message.now).item ≡ Some text.items }
        requires encoded_bytes { IsText self.old.settings.depth text.items }
        ensures { OnOk result (Completes self.old entries.old.items (asks (message_frame_of self.old.settings (content message.now) text.items) ∷ []) self.new entries.new.items) }
    {
        let number = self.free_number();
        let header = data_header(
            self.settings.device(),
            message.stream(),
            message.function(),
            message.wait(),
            number,
        );
        self.send_numbered(entries, Frame { header, text }, number)
    }
}

/// Returns the text of an item, or of no item. Returns `None` if the item has no encoding.
fn text_of(alloc: Global, item: Option<&Item>) -> Result<Option<Vec<u8>>, AllocError>
    ensures value { IfOk result (λ text. option_map (λ octets. octets.items) text ≡ text_of_item (option_map (λ i. view i.now) item.entry)) }
    ensures encoded_bytes { IfOk result (λ text. IfSome text (λ octets. IsSpelt (option_map (λ i. view i.now) item.entry) octets.items)) }
{
    match item {
        None => Ok(Some(Vec::new(alloc))),
        Some(item) => match encode(alloc, item) {
            Ok(text) => Ok(Some(text)),
            Err(ItemFault::TooLarge) => Ok(None),
            Err(_) => Err(AllocError),
        },
    }
}
