ghost use Rattle.std.specs.Prelude.{◌≡◌, ◌++◌, ◌∷◌, [], OnErr, OnOk, length};
ghost use Rattle.std.specs.Option.{option_copied};
ghost use Rattle.tb_follow.specs.Windows.{found, has_number, without};

use crate::message::Message;
use std::alloc::Global;
use std::marker::Model;
use tb_base::Memory;

/// The messages that wait for those before them, in the order in which they came.
#[derive(Drop)]
pub struct Window {
    list: Vec<Message>,
}

impl Model for Window {
    ghost use Rattle.std.specs.Prelude.{List};
    ghost use Rattle.std.specs.Coded.{coded_list};
    ghost use Rattle.tb_follow.specs.Messages.{message_code};
    ghost use Rattle.tb_follow.specs.declared.message.Message.{Message};

    ghost Value = { List Message };

    ghost coded = { coded_list message_code };

    ghost view = { λ w. w.list.items };
}

impl Window {
    /// No messages. It takes no memory.
    pub fn new(alloc: Global) -> Window
        ensures { result ≡ [] }
    {
        Window {
            list: Vec::new(alloc),
        }
    }

    /// How many messages wait.
    pub fn len(&self) -> usize
        ensures { result ≡ length self.now }
    {
        self.list.len()
    }

    // The message of a number, if it is there.
    pub(crate) fn find(&self, number: u32) -> Option<&Message>
        ensures { option_copied result ≡ found number self.now }
    {
        self.list.iter().find(|m| m.number == number)
    }

    // Whether a message of that number is there.
    pub(crate) fn has(&self, number: u32) -> bool
        ensures { result ≡ has_number self.now number }
    {
        self.list.iter().any(|m| m.number == number)
    }

    // Adds a message. Where the call is out of memory, nothing has changed, and the message is
    // given up.
    pub(crate) fn put(&mut self, message: Message) -> Result<(), Memory>
        ensures ok { OnOk result (self.new ≡ self.old ++ message ∷ []) }
        ensures err { OnErr result (self.new ≡ self.old) }
    {
        self.list.push(message)?;
        Ok(())
    }

    // Removes the message of a number, if it is there.
    pub(crate) fn remove(&mut self, number: u32)
        ensures { self.new ≡ without number self.old }
    {
        self.list.retain(|m| m.number != number);
    }

    // Removes every message.
    pub(crate) fn clear(&mut self)
        ensures { self.new ≡ [] }
    {
        self.list.clear();
    }
}
