// A plain reader of JSON, one byte after another: all values of a text in one list, each behind
// what holds it.
use crate::slow_numbers::is_number;
use std::alloc::Global;
use std::mem;
use std::process::Abort;

#[derive(Clone, Copy, PartialEq, Eq)]
pub(crate) enum Kind {
    Object,
    Array,
    Text,
    Number,
    Word,
}

// A value.
#[derive(Drop)]
pub(crate) struct Node {
    pub(crate) kind: Kind,
    // How many objects and arrays hold it.
    pub(crate) depth: usize,
    // Its name in an object.
    pub(crate) key: Vec<u8>,
    // The bytes of a text, or those of a number as they stand.
    pub(crate) text: Vec<u8>,
}

// What may come next.
#[derive(Clone, Copy, PartialEq, Eq)]
enum State {
    Value,
    ValueOrEnd,
    Key,
    KeyOrEnd,
    Colon,
    AfterValue,
    Text,
    Escape,
    Hex,
    Number,
    Word,
    Bad,
}

#[derive(Drop)]
struct Reader {
    alloc: Global,
    state: State,
    // Whether each holder, from outside, is an object.
    holders: Vec<bool>,
    is_key: bool,
    key: Vec<u8>,
    token: Vec<u8>,
    // The digits of an escape so far, and how many; the first half of a pair.
    hex: u32,
    digits: u8,
    first_half: u32,
    nodes: Vec<Node>,
}

fn is_space(byte: u8) -> bool {
    byte == 32 || byte == 9 || byte == 10 || byte == 13
}

fn hex_digit(byte: u8) -> Option<u32> {
    let value = u32::from(byte);
    match byte {
        b'0'..=b'9' => Some(value.saturating_sub(48)),
        b'a'..=b'f' => Some(value.saturating_sub(87)),
        b'A'..=b'F' => Some(value.saturating_sub(55)),
        _ => None,
    }
}

impl Reader {
    fn keep(&mut self, rt: &impl Abort, byte: u8) {
        assert!(rt; self.token.push(byte).is_ok(), "memory");
    }

    fn start(&mut self, state: State) {
        self.token.truncate(0);
        self.state = state;
    }

    fn node(&mut self, rt: &impl Abort, kind: Kind) {
        let key = mem::replace(&mut self.key, Vec::new(self.alloc));
        let text = mem::replace(&mut self.token, Vec::new(self.alloc));
        let depth = self.holders.len();
        let node = Node {
            kind,
            depth,
            key,
            text,
        };
        assert!(rt; self.nodes.push(node).is_ok(), "memory");
        self.state = State::AfterValue;
    }

    fn open(&mut self, rt: &impl Abort, is_object: bool) {
        if self.holders.len() > 126 {
            self.state = State::Bad;
            return;
        }
        self.token.truncate(0);
        if is_object {
            self.node(rt, Kind::Object);
            self.state = State::KeyOrEnd;
        } else {
            self.node(rt, Kind::Array);
            self.state = State::ValueOrEnd;
        }
        assert!(rt; self.holders.push(is_object).is_ok(), "memory");
    }

    fn close(&mut self, is_object: bool) {
        self.state = if self.holders.pop() == Some(is_object) {
            State::AfterValue
        } else {
            State::Bad
        };
    }

    fn value(&mut self, rt: &impl Abort, byte: u8) {
        match byte {
            b'{' => self.open(rt, true),
            b'[' => self.open(rt, false),
            b'"' => {
                self.is_key = false;
                self.start(State::Text);
            }
            b'-' | b'0'..=b'9' => {
                self.start(State::Number);
                self.keep(rt, byte);
            }
            b't' | b'f' | b'n' => {
                self.start(State::Word);
                self.keep(rt, byte);
            }
            b']' if self.state == State::ValueOrEnd => self.close(false),
            _ => self.state = State::Bad,
        }
    }

    fn name(&mut self, byte: u8) {
        match byte {
            b'"' => {
                self.is_key = true;
                self.start(State::Text);
            }
            b'}' if self.state == State::KeyOrEnd => self.close(true),
            _ => self.state = State::Bad,
        }
    }

    fn after_value(&mut self, byte: u8) {
        match byte {
            b',' => {
                self.state = match self.holders.last() {
                    Some(true) => State::Key,
                    Some(false) => State::Value,
                    None => State::Bad,
                }
            }
            b'}' => self.close(true),
            b']' => self.close(false),
            _ => self.state = State::Bad,
        }
    }

    fn in_text(&mut self, rt: &impl Abort, byte: u8) {
        match byte {
            b'\\' => self.state = State::Escape,
            _ if self.first_half != 0 || byte < 32 => self.state = State::Bad,
            b'"' if self.is_key => {
                self.key = mem::replace(&mut self.token, Vec::new(self.alloc));
                self.state = State::Colon;
            }
            b'"' => self.node(rt, Kind::Text),
            _ => self.keep(rt, byte),
        }
    }

    fn escape(&mut self, rt: &impl Abort, byte: u8) {
        let plain = match byte {
            b'"' | b'\\' | b'/' => byte,
            b'b' => 8,
            b'f' => 12,
            b'n' => 10,
            b'r' => 13,
            b't' => 9,
            b'u' => {
                self.hex = 0;
                self.digits = 0;
                self.state = State::Hex;
                return;
            }
            _ => 0,
        };
        if plain == 0 || self.first_half != 0 {
            self.state = State::Bad;
            return;
        }
        self.keep(rt, plain);
        self.state = State::Text;
    }

    // A text keeps a character above 7Fh as a byte FFh and its number: no member may have one.
    fn character(&mut self, rt: &impl Abort) {
        self.state = State::Text;
        let is_low = self.hex > 0xDBFF && self.hex < 0xE000;
        if is_low != (self.first_half != 0) {
            self.state = State::Bad;
        } else if self.hex > 0xD7FF && self.hex < 0xDC00 {
            self.first_half = self.hex;
        } else {
            if let Ok(byte) = u8::try_from(self.hex)
                && byte < 128
            {
                self.keep(rt, byte);
            } else {
                self.keep(rt, 255);
                for byte in self.first_half.to_le_bytes() {
                    self.keep(rt, byte);
                }
                for byte in self.hex.to_le_bytes() {
                    self.keep(rt, byte);
                }
            }
            self.first_half = 0;
        }
    }

    fn hex(&mut self, rt: &impl Abort, byte: u8) {
        let Some(digit) = hex_digit(byte) else {
            self.state = State::Bad;
            return;
        };
        self.hex = self.hex.saturating_mul(16).saturating_add(digit);
        self.digits = self.digits.saturating_add(1);
        if self.digits == 4 {
            self.character(rt);
        }
    }

    // What has no end of its own has ended.
    fn end(&mut self, rt: &impl Abort) {
        if self.state == State::Number {
            if is_number(&self.token) {
                self.node(rt, Kind::Number);
            } else {
                self.state = State::Bad;
            }
        } else if self.state == State::Word {
            let token = self.token.as_slice();
            if token == b"true".as_slice()
                || token == b"false".as_slice()
                || token == b"null".as_slice()
            {
                self.node(rt, Kind::Word);
            } else {
                self.state = State::Bad;
            }
        }
    }

    fn take(&mut self, rt: &impl Abort, byte: u8) {
        let goes_on = match self.state {
            State::Number => {
                (byte > 47 && byte < 58) || matches!(byte, b'+' | b'-' | b'.' | b'e' | b'E')
            }
            State::Word => byte > 96 && byte < 123,
            _ => true,
        };
        if !goes_on {
            self.end(rt);
        }
        match self.state {
            State::Text => self.in_text(rt, byte),
            State::Escape => self.escape(rt, byte),
            State::Hex => self.hex(rt, byte),
            State::Number | State::Word => self.keep(rt, byte),
            State::Bad => (),
            _ if is_space(byte) => (),
            State::Value | State::ValueOrEnd => self.value(rt, byte),
            State::Key | State::KeyOrEnd => self.name(byte),
            State::Colon => {
                self.state = if byte == b':' {
                    State::Value
                } else {
                    State::Bad
                }
            }
            State::AfterValue => self.after_value(byte),
        }
    }
}

// The values of a text, or nothing where it is no JSON of at most 127 levels.
pub(crate) fn slow_values(rt: &impl Abort, alloc: Global, text: &[u8]) -> Option<Vec<Node>> {
    if std::str::from_utf8(text).is_err() {
        return None;
    }
    let mut reader = Reader {
        alloc,
        state: State::Value,
        holders: Vec::new(alloc),
        is_key: false,
        key: Vec::new(alloc),
        token: Vec::new(alloc),
        hex: 0,
        digits: 0,
        first_half: 0,
        nodes: Vec::new(alloc),
    };
    for byte in text {
        reader.take(rt, *byte);
    }
    reader.end(rt);
    if reader.state == State::AfterValue && reader.holders.is_empty() {
        Some(reader.nodes)
    } else {
        None
    }
}

// The values that this one holds, in their order.
pub(crate) fn children(rt: &impl Abort, alloc: Global, nodes: &[Node], of: usize) -> Vec<usize> {
    let mut all = Vec::new(alloc);
    let mut is_inside = false;
    let mut depth = 0;
    for (i, node) in nodes.iter().enumerate() {
        if i == of {
            is_inside = true;
            depth = node.depth;
        } else if is_inside && node.depth <= depth {
            is_inside = false;
        } else if is_inside && node.depth - depth == 1 {
            assert!(rt; all.push(i).is_ok(), "memory");
        }
    }
    all
}

// The member of this name, the last where there are more.
pub(crate) fn member(
    rt: &impl Abort,
    alloc: Global,
    nodes: &[Node],
    of: usize,
    name: &str,
) -> Option<usize> {
    let mut found = None;
    for i in &children(rt, alloc, nodes, of) {
        if let Some(node) = nodes.get(*i)
            && node.key.as_slice() == name.as_bytes()
        {
            found = Some(*i);
        }
    }
    found
}
