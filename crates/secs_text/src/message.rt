//! SECS-II messages (SEMI E5).

ghost use Rattle.std.specs.Prelude.{◌≡◌, ◌<◌, option_map};

use secs_item::Item;

/// A message of SEMI E5: its stream (below 128) and function, whether it requests a reply (the W bit), and an optional
/// item.
#[derive(Debug)]
pub struct Message {
    stream: u8,
    function: u8,
    wait: bool,
    item: Option<Item>,
    ghost stream_in_range: { stream < 128 },
}

// Written out so that a proof has one step for a dropped value, not one for each format of an item.
impl Drop for Message {
    fn drop(self) {
        let Message {
            stream: _,
            function: _,
            wait: _,
            item,
        } = self;
        drop(item);
    }
}

impl Message {
    ghost use Rattle.secs_item.specs.Item.{view};
    ghost use Rattle.secs_text.specs.View.{content};

    /// Creates a message from its parts.
    pub fn new(stream: u8, function: u8, wait: bool, item: Option<Item>) -> Message
        requires { stream < 128 }
        ensures { content result ≡ record { stream = stream; function = function; wait = wait; item = option_map view item } }
    {
        Message {
            stream,
            function,
            wait,
            item,
        }
    }

    /// Returns the stream, 0 to 127.
    pub fn stream(&self) -> u8
        ensures value { result ≡ (content self.now).stream }
        ensures in_range { result < 128 }
    {
        self.stream
    }

    /// Returns the function, 0 to 255. Odd functions are primaries.
    pub fn function(&self) -> u8
        ensures { result ≡ (content self.now).function }
    {
        self.function
    }

    /// Returns true if the message requests a reply: the W bit.
    pub fn wait(&self) -> bool
        ensures { result ≡ (content self.now).wait }
    {
        self.wait
    }

    /// Returns the item. Returns `None` if the message has no item.
    pub fn item(&self) -> Option<&Item>
        ensures { option_map (λ i. view i.now) result ≡ (content self.now).item }
    {
        self.item.as_ref()
    }
}
