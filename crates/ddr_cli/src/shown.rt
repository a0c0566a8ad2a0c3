//! Commands in readable form.
ghost use Rattle.std.specs.Prelude.{◌≡◌, ◌<◌, ◌≤◌, ◌+◌, ◌^◌, ◌++◌, [], codes, length};
ghost use Rattle.std.specs.Fmt.{decimal};
ghost use Rattle.command_words.specs.declared.command.Command.{Command as AnyCommand};
ghost use Rattle.ddr_cli.specs.Shown.{shown_bank, shown_command, shown_line};

use arrayvec::ArrayVec;
use command_words::{Bank, BankAddr, Command};
use ddr_text::{ReportLine, put_number, put_text};

// Appends what is shown of a line: a C line's clock and its command, and nothing of another.
#[tactic(auto, unfolding(crate::specs::Shown::shown_line))]
pub(crate) fn show_line(line: &ReportLine, out: &mut ArrayVec<u8, 512>)
    requires { out.old.items ≡ [] }
    ensures { out.new.items ≡ shown_line line.now }
{
    match line {
        ReportLine::Issued(clock, command) => {
            put_number(*clock, out);
            show_command(command, out);
            put_text(b"\n", out);
        }
        ReportLine::Value(_, _, _, _) => {}
        ReportLine::Flip(_, _, _, _) => {}
        ReportLine::Stat(_, _) => {}
        ReportLine::End(_) => {}
        ReportLine::Refused(_, _) => {}
    }
}

// Appends a space and the text of a command.
#[tactic(auto, unfolding(crate::specs::Shown::shown_command))]
fn show_command(command: &Command, out: &mut ArrayVec<u8, 512>)
    requires { length out.old.items ≤ 30 }
    ensures text { out.new.items ≡ out.old.items ++ shown_command command.now }
    ensures short { length out.new.items ≤ 200 }
{
    match command {
        Command::Act(bank, row) => {
            put_text(b" ACT", out);
            put_bank(*bank, out);
            put_field(b" r", u64::from(row.get()), out);
        }
        Command::Rd(bank, column) => {
            put_text(b" RD", out);
            put_bank(*bank, out);
            put_field(b" c", u64::from(column.get()), out);
        }
        Command::Wr(bank, column) => {
            put_text(b" WR", out);
            put_bank(*bank, out);
            put_field(b" c", u64::from(column.get()), out);
        }
        Command::PrePb(bank) => {
            put_text(b" PREPB", out);
            put_bank(*bank, out);
        }
        Command::PreSb(address) => put_field(b" PRESB b", u64::from(address.get()), out),
        Command::PreAb => put_text(b" PREAB", out),
        Command::RefAb => put_text(b" REFAB", out),
        Command::RefSb(address) => put_field(b" REFSB b", u64::from(address.get()), out),
        Command::RfmAb => put_text(b" RFMAB", out),
        Command::RfmSb(address) => put_field(b" RFMSB b", u64::from(address.get()), out),
        Command::Mrw(write) => {
            put_field(b" MRW m", u64::from(write.address), out);
            put_field(b" v", u64::from(write.value), out);
        }
        Command::Ecs => put_text(b" ECS", out),
        Command::Nop => put_text(b" NOP", out),
    }
}

// Appends the group and the address of a bank.
fn put_bank(bank: Bank, out: &mut ArrayVec<u8, 512>)
    requires { length out.old.items ≤ 40 }
    ensures text { out.new.items ≡ out.old.items ++ shown_bank bank }
    ensures short { length out.new.items ≤ length out.old.items + 50 }
{
    put_field(b" g", u64::from(bank.group.get()), out);
    put_field(b" b", u64::from(bank.address.get()), out);
}

// Appends a text of at most 10 bytes and a number.
fn put_field(name: &[u8], number: u64, out: &mut ArrayVec<u8, 512>)
    requires name { length name.now ≤ 10 }
    requires room { length out.old.items ≤ 200 }
    ensures text { out.new.items ≡ out.old.items ++ (name.now ++ decimal number) }
    ensures short { length out.new.items ≤ length out.old.items + length name.now + 20 }
{
    put_text(name, out);
    put_number(number, out);
}
