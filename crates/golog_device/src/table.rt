// `TableDevice`, which answers by a table, for tests of what wild devices do.
ghost use Rattle.std.specs.Prelude.{◌≡◌, ◌<◌, ◌≤◌, ◌+◌, [], false, vec_len, IfOk};
ghost use Rattle.golog_device.specs.Logs.{SERVED_ROOM, is_over, is_cut, kept_by, room_of, bytes_room, told_by, given_by};

use crate::served::{SERVED_ROOM, ServedTexts};
use crate::told::{Told, ToldItems};
use crate::twin::{Twin, reversed_twins};
use crate::{Begun, Device, Idle, Served};
use golog_base::{List, NoMemory, both};
use std::alloc::Global;

/// A device that answers by a table, whatever it is asked: it says that it has begun, or hasn't; its answers to
/// actions are those of the table in their order, whether an answer is asked for or not, and then nothing; what
/// it does without a command is what the table says, and then it closes. It tells what it told, and what it was
/// given as far as this has room in 1,048,576 bytes, with one byte more for each text, but not what is left.
#[derive(Drop)]
pub struct TableDevice {
    fresh: bool,
    begun: Begun,
    // What is left of the table, the last in front.
    serves: Vec<Twin<Served>>,
    idles: Vec<Twin<Idle>>,
    told: ToldItems,
    served: ServedTexts,
    ghost room: { vec_len serves + vec_len idles < room_of told },
    ghost room_left: { is_over told ≡ false
        → vec_len serves + vec_len idles + kept_by told < room_of told },
    ghost served_room: { bytes_room served ≡ SERVED_ROOM },
}

// What is told and what is given, with room for so many tellings.
fn logs_with_room(alloc: Global, room: usize) -> Result<(ToldItems, ServedTexts), NoMemory>
    ensures told { IfOk result (λ logs. told_by logs.0 ≡ []) }
    ensures empty { IfOk result (λ logs. kept_by logs.0 ≡ 0) }
    ensures room { IfOk result (λ logs. room ≤ room_of logs.0) }
    ensures given { IfOk result (λ logs. given_by logs.1 ≡ []) }
    ensures whole { IfOk result (λ logs. is_cut logs.1 ≡ false) }
    ensures served_room { IfOk result (λ logs. bytes_room logs.1 ≡ SERVED_ROOM) }
{
    both(
        ToldItems::with_room(alloc, room),
        ServedTexts::with_room(alloc, SERVED_ROOM),
    )
}

impl TableDevice {
    ghost use Rattle.std.specs.Prelude.{◌≡◌, true, Some, IfOk};
    ghost use Rattle.golog_device.specs.Devices.{rest_of, told_after, told_then, tells};
    ghost use Rattle.golog_device.specs.Logs.{told_by};
    ghost use Rattle.golog_device.specs.Tables.{table_of, next_served, next_idle, unused};

    /// A fresh device with this table. It was given and told nothing. Takes memory: for a copy of each item, and
    /// for all that it tells later.
    pub fn new(
        alloc: Global,
        begun: Begun,
        serves: List<Served>,
        idles: List<Idle>,
    ) -> Result<TableDevice, NoMemory>
        ensures fresh { IfOk result (λ device. ⟦<TableDevice as Device>⟧.fresh device ≡ true) }
        ensures bare { IfOk result (λ device. ⟦<TableDevice as Device>⟧.meaning device ≡ unused) }
        ensures table { IfOk result (λ device. table_of device
            ≡ record { begun = begun; serves = serves; idles = idles }) }
    {
        let (serves, idles) = both(reversed_twins(alloc, serves), reversed_twins(alloc, idles))?;
        let room = serves.len() + idles.len() + 1;
        match logs_with_room(alloc, room) {
            Ok((told, served)) => Ok(TableDevice {
                fresh: true,
                begun,
                serves,
                idles,
                told,
                served,
            }),
            Err(fault) => {
                drop(serves);
                drop(idles);
                Err(fault)
            }
        }
    }

    // The next answer to an action, which is told.
    fn answer(&mut self) -> Served
        ensures answer { result ≡ next_served (table_of self.old).serves }
        ensures left { table_of self.new
            ≡ record (table_of self.old) { serves = rest_of (table_of self.old).serves } }
        ensures told { Some (told_by self.new.told) ≡ told_after (Some (told_by self.old.told)) result }
        ensures served { self.new.served ≡ self.old.served }
        ensures fresh { self.new.fresh ≡ self.old.fresh }
    {
        match self.serves.pop() {
            Some(served) => {
                let (handed, kept) = served.split();
                self.told.push_served(kept);
                handed
            }
            None => Served::Nothing,
        }
    }

    // What is done next without a command, which is told.
    fn fill_time(&mut self) -> Idle
        ensures next { result ≡ next_idle (table_of self.old).idles }
        ensures left { table_of self.new
            ≡ record (table_of self.old) { idles = rest_of (table_of self.old).idles } }
        ensures told { Some (told_by self.new.told) ≡ told_then (Some (told_by self.old.told)) (tells result) }
        ensures served { self.new.served ≡ self.old.served }
        ensures fresh { self.new.fresh ≡ self.old.fresh }
    {
        match self.idles.pop() {
            Some(idle) => {
                let (handed, kept) = idle.split();
                self.told.push(Told::of_idle(kept));
                handed
            }
            None => {
                self.told.push(Told::Close);
                Idle::Close
            }
        }
    }
}

impl Device for TableDevice {
    ghost use Rattle.std.specs.Prelude.{◌≡◌, ◌≤◌, true, length};
    ghost use Rattle.golog_device.specs.Devices.{Begins, still_fresh, Serves, Idles, rest_of};
    ghost use Rattle.golog_device.specs.Logs.{IsCutAtRoom};
    ghost use Rattle.golog_device.specs.Tables.{is_fresh, meaning_of, table_of, next_served, next_idle};

    ghost fresh = { is_fresh };

    ghost meaning = { meaning_of };

    /// Answers what the table says, whatever the name and the script. Takes no memory.
    fn begin(&mut self, _alloc: Global, name: &[u8], script: &[u8]) -> Begun
        requires { is_fresh self.old ≡ true }
        ensures fresh { is_fresh self.new ≡ still_fresh result }
        ensures begins { Begins result (meaning_of self.old) (meaning_of self.new) name.now script.now }
        ensures begun { result ≡ (table_of self.old).begun }
        ensures left { table_of self.new ≡ table_of self.old }
    {
        match self.begun {
            Begun::Ready => {
                self.fresh = false;
                self.told.clear();
                self.served.clear();
            }
            Begun::Refused | Begun::Memory => {}
        }
        self.begun
    }

    /// Answers what the table says next, whether an answer is asked for or not.
    fn serve(&mut self, action: &[u8], asked: bool) -> Served
        requires { length action.now ≤ 128 }
        ensures fresh { is_fresh self.new ≡ is_fresh self.old }
        ensures serves { Serves result (meaning_of self.old) (meaning_of self.new)
            (record { text = action.now; asked = asked }) }
        ensures next { result ≡ next_served (table_of self.old).serves }
        ensures left { table_of self.new
            ≡ record (table_of self.old) { serves = rest_of (table_of self.old).serves } }
        ensures cut { IsCutAtRoom (meaning_of self.old) (meaning_of self.new)
            (record { text = action.now; asked = asked }) }
    {
        self.served.push(action, asked);
        self.answer()
    }

    /// Does what the table says next, and closes where nothing is left.
    fn idle(&mut self) -> Idle
        ensures fresh { is_fresh self.new ≡ is_fresh self.old }
        ensures idles { Idles result (meaning_of self.old) (meaning_of self.new) }
        ensures next { result ≡ next_idle (table_of self.old).idles }
        ensures left { table_of self.new
            ≡ record (table_of self.old) { idles = rest_of (table_of self.old).idles } }
    {
        self.fill_time()
    }
}
