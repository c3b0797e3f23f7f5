// The program's lines, appended to a text in a lent buffer.
#![tactic(auto)]

ghost use Rattle.std.specs.Prelude.{◌≡◌, [], ◌∷◌, ◌++◌, ◌+◌, ◌-◌, ◌≤◌, length};
ghost use Rattle.kung.specs.Class.{of_code, name_of};
ghost use Rattle.report.specs.Text.{decimal, counts_line, verdict_word, refusal_line};
ghost use Rattle.report.specs.Lines.{text_of};
ghost use Rattle.report.specs.Placed.{Placed};

// A text at the start of a lent buffer, and how long it is.
#[derive(Drop)]
pub struct Text<'a> {
    bytes: &'a mut [u8],
    written: usize,
    ghost in_bounds: { written ≤ length bytes.now },
}

// What a line says of an output in a change.
#[derive(Clone, Copy)]
pub struct Line {
    pub change: usize,
    pub output: usize,
    pub class: u8,
    pub clean: bool,
    pub gates: usize,
    pub pins: usize,
}

// A class's name by its code.
#[tactic(auto, unfolding(kung::specs::Class::of_code))]
fn name(class: u8) -> &'static [u8]
    ensures { result.now ≡ name_of (of_code class) }
{
    match class % 8 {
        0 => b"0",
        1 => b"1",
        2 => b"R",
        3 => b"F",
        4 => b"S0",
        5 => b"S1",
        6 => b"D+",
        _ => b"D-",
    }
}

// A number's digits at a place of a buffer, and the place after them: a text would read and write its length again at each digit.
fn put_digits(bytes: &mut [u8], at: usize, n: usize) -> usize
    requires { at + length (decimal n) ≤ length bytes.old }
    ensures { Placed bytes.old bytes.new at result (decimal n) }
{
    if n < 10 {
        bytes[at] = b'0' + n as u8;
        return at + 1;
    }
    let last = put_digits(bytes, at, n / 10);
    bytes[last] = b'0' + (n % 10) as u8;
    last + 1
}

impl<'a> Text<'a> {
    ghost use Rattle.report.specs.Appended.{Fits, Appended};

    // The empty text of a buffer.
    pub fn new(bytes: &'a mut [u8]) -> Text<'a>
        ensures { (result.bytes ≡ bytes.entry) × (result.written ≡ 0) }
    {
        Text { bytes, written: 0 }
    }

    pub fn len(&self) -> usize
        ensures { result ≡ self.now.written }
    {
        self.written
    }

    // How many bytes are left.
    pub fn room(&self) -> usize
        ensures { result ≡ length self.now.bytes.now - self.now.written }
    {
        self.bytes.len() - self.written
    }

    fn put_byte(&mut self, byte: u8)
        requires { Fits self.old (byte ∷ []) }
        ensures { Appended self.old self.new (byte ∷ []) }
    {
        self.bytes[self.written] = byte;
        self.written += 1;
    }

    fn put_decimal(&mut self, n: usize)
        requires { Fits self.old (decimal n) }
        ensures { Appended self.old self.new (decimal n) }
    {
        self.written = put_digits(self.bytes, self.written, n);
    }

    // A number, and the blank or line feed after it.
    fn put_number(&mut self, n: usize, end: u8)
        requires { Fits self.old (decimal n ++ (end ∷ [])) }
        ensures { Appended self.old self.new (decimal n ++ (end ∷ [])) }
    {
        self.put_decimal(n);
        self.put_byte(end);
    }

    // A word, and the blank or line feed after it.
    fn put_word(&mut self, word: &[u8], end: u8)
        requires { Fits self.old (word.now ++ (end ∷ [])) }
        ensures { Appended self.old self.new (word.now ++ (end ∷ [])) }
    {
        for byte in word {
            self.put_byte(*byte);
        }
        self.put_byte(end);
    }

    // By two calls: the length of each word is known where it is written, so that none is copied by a call.
    fn put_judgement(&mut self, clean: bool)
        requires { Fits self.old (verdict_word clean ++ (32 ∷ [])) }
        ensures { Appended self.old self.new (verdict_word clean ++ (32 ∷ [])) }
    {
        if clean {
            self.put_word(b"clean", b' ');
        } else {
            self.put_word(b"hazard", b' ');
        }
    }

    pub fn put_counts(&mut self, inputs: usize, gates: usize, outputs: usize, changes: usize)
        requires { Fits self.old (counts_line inputs gates outputs changes) }
        ensures { Appended self.old self.new (counts_line inputs gates outputs changes) }
    {
        self.put_number(inputs, b' ');
        self.put_word(b"inputs", b' ');
        self.put_number(gates, b' ');
        self.put_word(b"gates", b' ');
        self.put_number(outputs, b' ');
        self.put_word(b"outputs", b' ');
        self.put_number(changes, b' ');
        self.put_word(b"changes", b'\n');
    }

    pub fn put_verdict(&mut self, line: Line)
        requires { Fits self.old (text_of line) }
        ensures { Appended self.old self.new (text_of line) }
    {
        self.put_number(line.change, b' ');
        self.put_number(line.output, b' ');
        self.put_word(name(line.class), b' ');
        self.put_judgement(line.clean);
        self.put_number(line.gates, b' ');
        self.put_number(line.pins, b'\n');
    }

    // Number and place and no Refusal: tried, and the caller's proof that its line has room didn't close before the call of `place`.
    pub fn put_refusal(&mut self, number: u8, place: usize)
        requires { Fits self.old (refusal_line number place) }
        ensures { Appended self.old self.new (refusal_line number place) }
    {
        self.put_word(b"refused", b' ');
        self.put_number(number as usize, b' ');
        self.put_word(b"at", b' ');
        self.put_number(place, b'\n');
    }
}
