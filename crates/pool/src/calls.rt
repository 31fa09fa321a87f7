//! The calls of a pool's life. Each is made as its rules say, and by each every life goes on.
ghost use Rattle.pool.specs.State.{state_of};
ghost use Rattle.pool.specs.Promises.{Obeys, PassesOn};

use crate::{OpenDay, Pool, ShutDay};
use book::Book;
use share::SharingRule;
use terms::{Call, Refusal};

impl<B: Book, C: Book, S: SharingRule> Pool<B, C, S> {
    /// Moves the clock on to a minute of the day.
    pub fn clock(&mut self, day: &OpenDay, minute: u64) -> Result<(), Refusal>
        ensures { Obeys (state_of B.Book C.Book S.SharingRule self.old) day.now.number (Call.Clock minute) tt result (state_of B.Book C.Book S.SharingRule self.new) }
    {
        self.make(day.number, Call::Clock { minute })
    }

    /// Sets the face of a bond up to which a member lends.
    pub fn quota(
        &mut self,
        day: &OpenDay,
        account: u64,
        bond: u64,
        face: u64,
    ) -> Result<(), Refusal>
        ensures { Obeys (state_of B.Book C.Book S.SharingRule self.old) day.now.number (Call.Quota account bond face) tt result (state_of B.Book C.Book S.SharingRule self.new) }
    {
        let call = Call::Quota {
            account,
            bond,
            face,
        };
        self.make(day.number, call)
    }

    /// Sets how a member lends: 0 by presets, 1 its whole available face.
    pub fn mode(&mut self, day: &OpenDay, account: u64, mode: u64) -> Result<(), Refusal>
        ensures { Obeys (state_of B.Book C.Book S.SharingRule self.old) day.now.number (Call.Mode account mode) tt result (state_of B.Book C.Book S.SharingRule self.new) }
    {
        self.make(day.number, Call::Mode { account, mode })
    }

    /// Sets a bond's price, in fen for 100 yuan of face.
    pub fn price(&mut self, day: &OpenDay, bond: u64, price: u64) -> Result<(), Refusal>
        ensures { Obeys (state_of B.Book C.Book S.SharingRule self.old) day.now.number (Call.Price bond price) tt result (state_of B.Book C.Book S.SharingRule self.new) }
    {
        self.make(day.number, Call::Price { bond, price })
    }

    /// Moves a face of a bond from what one member has available to another.
    pub fn deliver(
        &mut self,
        day: &OpenDay,
        from: u64,
        to: u64,
        bond: u64,
        face: u64,
    ) -> Result<(), Refusal>
        ensures { Obeys (state_of B.Book C.Book S.SharingRule self.old) day.now.number (Call.Deliver from to bond face) tt result (state_of B.Book C.Book S.SharingRule self.new) }
    {
        let call = Call::Deliver {
            from,
            to,
            bond,
            face,
        };
        self.make(day.number, call)
    }

    /// Moves cash, in fen, from one member to another.
    pub fn remit(&mut self, day: &OpenDay, from: u64, to: u64, fen: u64) -> Result<(), Refusal>
        ensures { Obeys (state_of B.Book C.Book S.SharingRule self.old) day.now.number (Call.Remit from to fen) tt result (state_of B.Book C.Book S.SharingRule self.new) }
    {
        self.make(day.number, Call::Remit { from, to, fen })
    }

    /// Ends the day. A refused shut hands the open day back.
    pub fn shut(&mut self, day: OpenDay) -> Result<ShutDay, (Refusal, OpenDay)>
        ensures { PassesOn (state_of B.Book C.Book S.SharingRule self.old) day.number Call.Shut day (record { number = day.number }) result (state_of B.Book C.Book S.SharingRule self.new) }
    {
        match self.make(day.number, Call::Shut) {
            Ok(()) => Ok(ShutDay { number: day.number }),
            Err(refusal) => Err((refusal, day)),
        }
    }

    /// Turns a shut day into the next day, at minute 0. A refused next hands the shut day back.
    pub fn next(
        &mut self,
        shut: ShutDay,
        day: u64,
        r001: u64,
    ) -> Result<OpenDay, (Refusal, ShutDay)>
        ensures { PassesOn (state_of B.Book C.Book S.SharingRule self.old) shut.number (Call.Next day r001) shut (record { number = day }) result (state_of B.Book C.Book S.SharingRule self.new) }
    {
        self.next_on(shut, day, r001)
    }
}

impl<B: Book, C: Book, S: SharingRule> Pool<B, C, S> {
    // Any call, made with a day of that number, as the records and the transfers make it.
    fn make(&mut self, today: u32, call: Call) -> Result<(), Refusal>
        ensures { Obeys (state_of B.Book C.Book S.SharingRule self.old) today call tt result (state_of B.Book C.Book S.SharingRule self.new) }
    {
        match call {
            Call::Clock { minute } => self.records.clock(today, minute),
            Call::Quota {
                account,
                bond,
                face,
            } => self.records.quota(today, account, bond, face),
            Call::Mode { account, mode } => self.records.mode(today, account, mode),
            Call::Price { bond, price } => self.records.price(today, bond, price),
            Call::Deliver {
                from,
                to,
                bond,
                face,
            } => {
                transfers::deliver(
                    &mut self.parts.bonds,
                    &self.records,
                    today,
                    from,
                    to,
                    bond,
                    face,
                )
            }
            Call::Remit { from, to, fen } => {
                transfers::remit(&mut self.parts.cash, &self.records, today, from, to, fen)
            }
            Call::Shut => self.records.shut(today),
            Call::Next { day, r001 } => self.records.next(today, day, r001),
        }
    }

    // Not joined with `next`: the proof needs a file, and a bug in the public call is to be refused at its own line.
    fn next_on(&mut self, shut: ShutDay, day: u64, r001: u64) -> Result<OpenDay, (Refusal, ShutDay)>
        ensures { PassesOn (state_of B.Book C.Book S.SharingRule self.old) shut.number (Call.Next day r001) shut (record { number = day }) result (state_of B.Book C.Book S.SharingRule self.new) }
    {
        match self.make(shut.number, Call::Next { day, r001 }) {
            Ok(()) => Ok(OpenDay {
                number: self.records.time.day,
            }),
            Err(refusal) => Err((refusal, shut)),
        }
    }
}
