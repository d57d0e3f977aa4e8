// The commands of a network file.
ghost use Rattle.std.specs.Prelude.{◌≡◌, Some};
ghost use Rattle.network.specs.Network as net;
ghost use Rattle.network.specs.Engine.Commands.{kind_of};

// A command, by its byte.
#[derive(Clone, Copy)]
pub enum Command {
    Line = 0x4C,
    Call = 0x43,
    Ride = 0x46,
    End = 0x45,
    Edition = 0x56,
}

impl Command {
    // The command that a byte is; none where it is unknown.
    pub fn of(code: u8) -> Option<Command>
        ensures { kind_of result ≡ net.command code }
    {
        match code {
            0x4C => Some(Command::Line),
            0x43 => Some(Command::Call),
            0x46 => Some(Command::Ride),
            0x45 => Some(Command::End),
            0x56 => Some(Command::Edition),
            _ => None,
        }
    }

    // How many bytes of operands it has.
    #[tactic(auto, unfolding(crate::specs::Engine::Commands::kind_of, crate::specs::Network::operand_bytes))]
    pub fn operand_bytes(self) -> usize
        ensures { result ≡ net.operand_bytes (kind_of (Some self)) }
    {
        match self {
            Command::Line => 2,
            Command::Call => 4,
            Command::Ride => 4,
            Command::End => 0,
            Command::Edition => 1,
        }
    }
}
