// Writing a sheet, field after field.
ghost use Rattle.std.specs.Prelude.{◌≡◌, true, ◌++◌, ◌+◌, ◌*◌, ◌/◌, ◌%◌, ◌≤◌, ◌<◌, length};
ghost use Rattle.rules.specs.Bits.{bits, value_bits, all_fit};
ghost use Rattle.rules.specs.Sheet.{number_bits, sheet_bits, sheet};
ghost use Rattle.rules.specs.Outcome.{over};
ghost use Rattle.rules.specs.Refusals.{ask_refusal};
ghost use Rattle.sheet.specs.Answers.{held};
ghost use Rattle.sheet.specs.Pen.{Puts, Room, asks_in};

use crate::Numbers;
use crate::refuse::Accepted;
use crate::values::Width;

// It keeps the output and the next bit. The bits after that one, to the byte's end, are 0. Each method asks for the room that it needs, and says what it put:
// `Room` and `Puts` stay in the contracts, since the number of bits and the bits differ.
#[derive(Drop)]
pub(crate) struct Pen<'a> {
    pub(crate) out: &'a mut [u8],
    pub(crate) next: usize,
}

impl Pen<'_> {
    // The last k bits of v into the byte that the next bit lies in; the bits after them, to the byte's end, become 0.
    fn part(&mut self, k: usize, v: usize)
        requires some { 1 ≤ k }
        requires inside { self.old.next % 8 + k ≤ 8 }
        requires room { Room self.old k }
        ensures { Puts self.old self.new (bits k v) }
    {
        let place = self.next / 8;
        let before = self.next % 8;
        let kept = usize::from(self.out[place]) >> (8 - before);
        // What was kept, the new bits and the zeros after them are eight bits, so that the cast loses none.
        self.out[place] = (((kept << k) + v % (1 << k)) << (8 - before - k)) as u8;
        self.next += k;
    }

    // A field: the last w bits of v, the most significant first.
    fn field(&mut self, w: usize, v: usize)
        requires few { w < 32 }
        requires room { Room self.old w }
        ensures put { Puts self.old self.new (bits w v) }
        ensures moved { self.new.next ≡ self.old.next + w }
    {
        let mut k = w;
        // Stays: the parts of a field differ in length, so what is left is counted, and no iterator has them.
        while k > 0 {
            let t = k.min(8 - self.next % 8);
            k -= t;
            self.part(t, v >> k);
        }
    }

    // Values of a width, one after the other.
    fn values(&mut self, width: Width, zs: &[i8])
        requires fit { all_fit width.c zs.now ≡ true }
        requires room { Room self.old (length zs.now * width.c) }
        ensures put { Puts self.old self.new (value_bits width.c zs.now) }
        ensures moved { self.new.next ≡ self.old.next + length zs.now * width.c }
    {
        for z in zs {
            self.field(width.c, usize::from(z.cast_unsigned()));
        }
    }

    // One ask: its four numbers, then its query.
    #[tactic(auto, unfolding(rules::specs::Refusals::ask_refusal))]
    fn ask(&mut self, width: Width, row: [u16; 4], query: &[i8])
        requires given { ask_refusal row ≡ 0 }
        requires fit { all_fit width.c query.now ≡ true }
        requires room { Room self.old (36 + length query.now * width.c) }
        ensures { Puts self.old self.new (number_bits row ++ value_bits width.c query.now) }
    {
        let numbers = Numbers::from(row);
        self.field(7, usize::from(numbers.start));
        self.field(7, usize::from(numbers.width - 1));
        self.field(7, usize::from(numbers.k - 1));
        self.field(15, usize::from(numbers.threshold));
        self.values(width, query);
    }

    // The asks.
    fn asks(&mut self, sheet: &Accepted<'_>)
        requires { Room self.old (length (asks_in (held sheet.now.contents))) }
        ensures { Puts self.old self.new (asks_in (held sheet.now.contents)) }
    {
        let contents = sheet.contents;
        let head = contents.head;
        let width = Width { c: head.c };
        let queries = contents.queries.chunks_exact(head.d);
        let rows = contents.numbers.as_chunks::<4>().0;
        for (row, query) in rows.iter().zip(queries) {
            self.ask(width, *row, query);
        }
    }

    // The whole sheet but the filling, which is 0 as a pen leaves it.
    #[tactic(auto, using(crate::proofs::Whole::sheet_long))]
    fn sheet(&mut self, sheet: &Accepted<'_>)
        requires { Room self.old (length (sheet_bits (held sheet.now.contents))) }
        ensures { Puts self.old self.new (sheet_bits (held sheet.now.contents)) }
    {
        let contents = sheet.contents;
        let head = contents.head;
        self.field(7, head.n - 1);
        self.field(6, head.d - 1);
        self.field(3, head.c - 1);
        self.field(8, head.asks);
        self.values(Width { c: head.c }, contents.vectors);
        self.asks(sheet);
    }
}

impl Accepted<'_> {
    // Puts the sheet into the output, and answers its length; the bytes past it stay as they were.
    pub(crate) fn put(&self, output: &mut [u8]) -> usize
        requires { self.now.length ≤ length output.old }
        ensures long { result ≡ length (sheet (held self.now.contents)) }
        ensures written { output.new ≡ over (sheet (held self.now.contents)) output.old }
    {
        let mut pen = Pen {
            out: output,
            next: 0,
        };
        pen.sheet(self);
        self.length
    }
}
