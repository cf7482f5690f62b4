// Taking a message: reading it, examining it by itself, judging what it orders, and carrying that out.
ghost use Rattle.std.specs.Prelude.{◌≡◌, length};
ghost use Rattle.message.specs.Said.{said_by};
ghost use Rattle.message.specs.Messages.{table_left};
ghost use Rattle.book.specs.Desk.{Led, Served};
ghost use Rattle.meeting.specs.Notices.{convened};
ghost use Rattle.meeting.specs.Taking.{done};
ghost use Rattle.meeting.specs.Lent.{Takes, TakesRead};

use crate::meeting::{Meeting, Taking};
use book::acting::{Taken, taken_by};
use book::desk::Desk;
use book::faults::BookFault;
use book::judging::judge;
use book::record::Record;
use message::message::Message;
use message::reading::read_message;
use reader::table::Entry;
use register::interface::Register;
use tally::interface::Tally;

impl Meeting<Taking> {
    // Takes a message that is read.
    fn take_message<R: Register, T: Tally>(
        &self,
        desk: &mut Desk<'_, R, T>,
        message: &Message,
    ) -> Result<Taken, BookFault>
        ensures served { Served R.Register T.Tally desk.old desk.new }
        ensures taking { TakesRead R.Register T.Tally (convened self.now) desk.old (said_by message.now) (done result) desk.new }
    {
        let order = self.notice.examine(message)?;
        let records = &mut *desk.records;
        let number = judge(desk.register, records, &order)?;
        desk.act(&order, number);
        Ok(taken_by(&order))
    }

    // Stays with a register, a tally and records: the three are lent to each call, and are the caller's own between the calls.
    // Takes a text as the message of this number: reads it into the table, examines it by itself, judges what it orders, and carries that
    // out. Refused, all but the table is as it was; what a front remembers and counts may have changed.
    pub fn take<R: Register, T: Tally>(
        &self,
        register: &mut R,
        tally: &mut T,
        records: &mut [Record],
        table: &mut [Entry],
        number: u16,
        text: &[u8],
    ) -> Result<Taken, BookFault>
        ensures led { Led R.Register register.old register.new }
        ensures scale { T.Tally.scale tally.new ≡ T.Tally.scale tally.old }
        ensures entries { table.new ≡ table_left number text.now table.old }
        ensures taking { Takes R.Register T.Tally (convened self.now) (length table.old) number text.now register.old tally.old records.old (done result) register.new tally.new records.new }
    {
        let message = read_message(number, text, table)?;
        self.take_message(
            &mut Desk {
                register,
                tally,
                records,
            },
            &message,
        )
    }
}
