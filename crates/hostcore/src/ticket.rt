//! Commands on their way to a core: a desk gives each a name and a ticket.

ghost use Rattle.std.specs.Prelude.{◌≡◌, ◌+◌, ◌<◌};
ghost use Rattle.model.specs.declared.limits.TheConstants.{MAX_NAMES};
ghost use Rattle.model.specs.History.{NamedCommand};

use model::history::{Command, Name};
use std::marker::Model;

/// The right to what comes of a command. Contracts see the command's name. It can't be copied or
/// dropped: it is collected or abandoned.
pub struct Ticket {
    name: Name,
}

impl Model for Ticket {
    ghost use Rattle.model.specs.declared.history.Name.{Name};

    ghost Value = { Name };

    ghost view = { λ t. t.name };
}

impl Ticket {
    /// The name of its command.
    pub fn name(&self) -> Name
        ensures { result ≡ self.now }
    {
        self.name
    }

    /// The ticket is gone.
    pub(crate) fn spent(self) {
        let Ticket { name: _ } = self;
    }
}

/// A command with its name, on its way. It can be dropped, and not copied.
#[derive(Drop)]
pub struct Queued {
    command: Command,
    name: Name,
}

impl Model for Queued {
    ghost use Rattle.model.specs.History.{NamedCommand};

    ghost Value = { NamedCommand };

    ghost view = { λ q. record { name = q.name; command = q.command } };
}

impl Queued {
    /// It is taken, and has to be performed or given up.
    pub fn taken(self) -> Taken
        ensures { result ≡ self }
    {
        let Queued { command, name } = self;
        Taken { command, name }
    }
}

/// A command that was taken and isn't performed yet. It can't be copied or dropped: it is performed
/// or given up.
pub struct Taken {
    command: Command,
    name: Name,
}

impl Model for Taken {
    ghost use Rattle.model.specs.History.{NamedCommand};

    ghost Value = { NamedCommand };

    ghost view = { λ t. record { name = t.name; command = t.command } };
}

impl Taken {
    /// Its command: it won't be performed.
    pub fn give_up(self) -> Command
        ensures { result ≡ self.command }
    {
        let Taken { command, name: _ } = self;
        command
    }

    /// The name of its command.
    pub fn name(&self) -> Name
        ensures { result ≡ self.now.name }
    {
        self.name
    }

    /// Its command.
    pub fn command(&self) -> Command
        ensures { result ≡ self.now.command }
    {
        self.command
    }
}

/// What gives the commands of one submitter their names, which count from 0. Contracts see the name
/// that is next.
#[derive(Drop)]
pub struct Desk {
    submitter: u32,
    opened: u64,
}

impl Model for Desk {
    ghost use Rattle.model.specs.declared.history.Name.{Name};

    ghost Value = { Name };

    ghost view = { λ d. record { submitter = d.submitter; count = d.opened } };
}

impl Desk {
    /// The desk of a submitter, before its first command.
    pub fn new(submitter: u32) -> Desk
        ensures { result ≡ record { submitter = submitter; count = 0 } }
    {
        Desk {
            submitter,
            opened: 0,
        }
    }

    /// The name of the next command.
    pub fn next_name(&self) -> Name
        ensures { result ≡ self.now }
    {
        Name {
            submitter: self.submitter,
            count: self.opened,
        }
    }

    /// Gives a command its name, of which there are fewer than 18,446,744,073,709,551,615.
    pub fn open(&mut self, command: Command) -> (Ticket, Queued)
        requires room { self.old.count < MAX_NAMES }
        ensures ticket { result.0 ≡ self.old }
        ensures queued { result.1 ≡ record { name = self.old; command = command } }
        ensures counted { self.new ≡ record self.old { count = self.old.count + 1 } }
    {
        let name = self.next_name();
        self.opened += 1;
        (Ticket { name }, Queued { command, name })
    }

    /// Takes back the pair that was opened last, with its count.
    pub fn undo(&mut self, ticket: Ticket, queued: Queued) -> Command
        requires last { self.old ≡ record ticket { count = ticket.count + 1 } }
        requires pair { queued.name ≡ ticket }
        ensures command { result ≡ queued.command }
        ensures undone { self.new ≡ ticket }
    {
        ticket.spent();
        self.opened -= 1;
        let Queued { command, name: _ } = queued;
        command
    }
}
