//! The parts of a place: groups, bank addresses, rows and columns, each within its range.
ghost use Rattle.std.specs.Prelude.{◌≡◌, ◌<◌, ◌↔◌, IsSome, IfSome};

use std::marker::Model;

/// A bank group, 0 to 7.
#[derive(Clone, Copy, Debug, PartialEq, Eq)]
pub struct Group {
    number: u8,
}

impl Model for Group {
    ghost use Rattle.std.specs.Prelude.{ℕ, ◌<◌};

    ghost Value = { ℕ };

    ghost view = { λ x. x.number };

    ghost invariant = { λ x. x.number < 8 };

    ghost inverse = { λ n. record { number = n } };
}

impl Group {
    /// `None` exactly where the number is 8 or more.
    pub fn new(number: u8) -> Option<Self>
        ensures in_range { IsSome result ↔ (number < 8) }
        ensures value { IfSome result (λ x. x ≡ number) }
    {
        if number < 8 {
            Some(Group { number })
        } else {
            None
        }
    }

    // The value of a number that is known to be in range.
    pub(crate) fn of(number: u32) -> Self
        requires { number < 8 }
        ensures { result ≡ number }
    {
        Group {
            number: number as u8,
        }
    }

    /// The number.
    pub fn get(self) -> u8
        ensures number { result ≡ self }
        ensures in_range { result < 8 }
    {
        self.number
    }
}

/// A bank's address within its group, 0 to 3.
#[derive(Clone, Copy, Debug, PartialEq, Eq)]
pub struct BankAddr {
    number: u8,
}

impl Model for BankAddr {
    ghost use Rattle.std.specs.Prelude.{ℕ, ◌<◌};

    ghost Value = { ℕ };

    ghost view = { λ x. x.number };

    ghost invariant = { λ x. x.number < 4 };

    ghost inverse = { λ n. record { number = n } };
}

impl BankAddr {
    /// `None` exactly where the number is 4 or more.
    pub fn new(number: u8) -> Option<Self>
        ensures in_range { IsSome result ↔ (number < 4) }
        ensures value { IfSome result (λ x. x ≡ number) }
    {
        if number < 4 {
            Some(BankAddr { number })
        } else {
            None
        }
    }

    // The value of a number that is known to be in range.
    pub(crate) fn of(number: u32) -> Self
        requires { number < 4 }
        ensures { result ≡ number }
    {
        BankAddr {
            number: number as u8,
        }
    }

    /// The number.
    pub fn get(self) -> u8
        ensures number { result ≡ self }
        ensures in_range { result < 4 }
    {
        self.number
    }
}

/// A row of a bank, 0 to 65,535.
#[derive(Clone, Copy, Debug, PartialEq, Eq)]
pub struct Row {
    number: u32,
}

impl Model for Row {
    ghost use Rattle.std.specs.Prelude.{ℕ, ◌<◌};

    ghost Value = { ℕ };

    ghost view = { λ x. x.number };

    ghost invariant = { λ x. x.number < 65536 };

    ghost inverse = { λ n. record { number = n } };
}

impl Row {
    /// `None` exactly where the number is 65,536 or more.
    pub fn new(number: u32) -> Option<Self>
        ensures in_range { IsSome result ↔ (number < 65536) }
        ensures value { IfSome result (λ x. x ≡ number) }
    {
        if number < 65536 {
            Some(Row { number })
        } else {
            None
        }
    }

    // The value of a number that is known to be in range.
    pub(crate) fn of(number: u32) -> Self
        requires { number < 65536 }
        ensures { result ≡ number }
    {
        Row { number }
    }

    /// The number.
    pub fn get(self) -> u32
        ensures number { result ≡ self }
        ensures in_range { result < 65536 }
    {
        self.number
    }
}

/// A column of a row, in bursts of 64 bytes, 0 to 63.
#[derive(Clone, Copy, Debug, PartialEq, Eq)]
pub struct Column {
    number: u8,
}

impl Model for Column {
    ghost use Rattle.std.specs.Prelude.{ℕ, ◌<◌};

    ghost Value = { ℕ };

    ghost view = { λ x. x.number };

    ghost invariant = { λ x. x.number < 64 };

    ghost inverse = { λ n. record { number = n } };
}

impl Column {
    /// `None` exactly where the number is 64 or more.
    pub fn new(number: u8) -> Option<Self>
        ensures in_range { IsSome result ↔ (number < 64) }
        ensures value { IfSome result (λ x. x ≡ number) }
    {
        if number < 64 {
            Some(Column { number })
        } else {
            None
        }
    }

    // The value of a number that is known to be in range.
    pub(crate) fn of(number: u32) -> Self
        requires { number < 64 }
        ensures { result ≡ number }
    {
        Column {
            number: number as u8,
        }
    }

    /// The number.
    pub fn get(self) -> u8
        ensures number { result ≡ self }
        ensures in_range { result < 64 }
    {
        self.number
    }
}

/// A bank, by its group and its address there.
#[derive(Clone, Copy, Debug, PartialEq, Eq)]
pub struct Bank {
    pub group: Group,
    pub address: BankAddr,
}

impl Bank {
    ghost use Rattle.command_words.specs.Command.{bank_number};

    /// The bank with this number, below 32.
    pub fn numbered(number: u8) -> Self
        requires { number < 32 }
        ensures { bank_number result ≡ number }
    {
        Bank {
            group: Group::of(u32::from(number / 4)),
            address: BankAddr::of(u32::from(number % 4)),
        }
    }

    /// The bank's number, `group * 4 + address`.
    pub fn number(self) -> u8
        ensures number { result ≡ bank_number self }
        ensures in_range { result < 32 }
    {
        self.group.get() * 4 + self.address.get()
    }
}
