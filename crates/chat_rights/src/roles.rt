// Roles by their numbers.
ghost use Rattle.std.specs.Prelude.{◌≡◌, ◌<◌};
ghost use Rattle.chat_rights.specs.Template.{role_number, role_of};

use crate::Role;

impl Role {
    /// The number that stands for the role in a template: 0 terminal, 1 foreign and 2 domestic verifier, 3 authority.
    pub fn number(&self) -> u8
        ensures number { result ≡ role_number self.now }
        ensures small { result < 4 }
    {
        match self {
            Role::Terminal => 0,
            Role::Foreign => 1,
            Role::Domestic => 2,
            Role::Cvca => 3,
        }
    }

    /// The role of this number, which is at most 3.
    pub(crate) fn of_number(number: u8) -> Role
        ensures { result ≡ role_of number }
    {
        match number {
            0 => Role::Terminal,
            1 => Role::Foreign,
            2 => Role::Domestic,
            _ => Role::Cvca,
        }
    }
}
