//! Entries gathered token by token.
ghost use Rattle.std.specs.Prelude.{◌≡◌, List, None, map, IfOk, OnOk};
ghost use Rattle.hv_dtlex.specs.declared.token.Token.{Token};
ghost use Rattle.hv_dtlex.specs.declared.token.Mode.TheVariants.{Name};
ghost use Rattle.hv_dtgram.specs.Lexed.{token_text, Lexes};
ghost use Rattle.hv_dtgram.specs.Contents.{Piece, label, word, number, text, pair, reference, mark, piece_of, source_pieces};
ghost use Rattle.hv_dtgram.specs.Gathering.{gather, nothing_gathered, without_last};
ghost use Rattle.hv_dtgram.specs.declared.contents.Entry.{Entry};

use crate::contents::{Cell, Entry, Named, Value};
use crate::lexed::mode_after;
use crate::symbol::Symbol;
use crate::word::kind_and_word;
use hv_dtlex::{Mode, Token, TokenKind, cell_of, next_token, number_value, string_value};
use hv_text::{Bytes, Items};
use std::alloc::{AllocError, Global};
use std::mem;

/// What was read of an entry, and the entries before it.
#[derive(Drop)]
pub struct Gathered {
    pub labels: Items<Named>,
    pub name: Option<Named>,
    pub values: Items<Value>,
    pub cells: Items<Cell>,
    /// Whether a list of cells is open.
    pub in_cells: bool,
    pub bytes: Bytes,
    pub entries: Items<Entry>,
}

fn token_text(text: &[u8], token: Token) -> &[u8]
    ensures { result.now ≡ token_text text.now token }
{
    let front = text.split_at(token.end.min(text.len())).0;
    front.split_at(token.start.min(front.len())).1
}

fn named(alloc: Global, name: &[u8], place: usize) -> Result<Named, AllocError>
    ensures { IfOk result (λ named. named ≡ record { name = name.now; place = place }) }
{
    Ok(Named {
        name: Bytes::from_vec(Vec::from_slice(alloc, name)?),
        place,
    })
}

impl Gathered {
    fn new(alloc: Global) -> Gathered
        ensures { result ≡ nothing_gathered }
    {
        Gathered {
            labels: Items::new(alloc),
            name: None,
            values: Items::new(alloc),
            cells: Items::new(alloc),
            in_cells: false,
            bytes: Bytes::from_vec(Vec::new(alloc)),
            entries: Items::new(alloc),
        }
    }

    fn note_reference(&mut self, name: Named) -> Result<(), AllocError>
        ensures { OnOk result (self.new ≡ gather self.old (reference name)) }
    {
        if self.in_cells {
            return self.cells.push(Cell::Phandle(name));
        }
        self.values.push(Value::Path(name))
    }

    fn close_cells(&mut self, alloc: Global) -> Result<(), AllocError>
        ensures { OnOk result (self.new ≡ gather self.old (mark Symbol.CellsClose)) }
    {
        let mut cells = mem::replace(&mut self.cells, Items::new(alloc));
        cells.trim();
        self.in_cells = false;
        self.values.push(Value::Cells(cells))
    }

    fn close_bytes(&mut self, alloc: Global) -> Result<(), AllocError>
        ensures { OnOk result (self.new ≡ gather self.old (mark Symbol.BytesClose)) }
    {
        let bytes = mem::replace(&mut self.bytes, Bytes::from_vec(Vec::new(alloc)));
        self.values.push(Value::Bytes(bytes))
    }

    fn open_node(&mut self, alloc: Global) -> Result<(), AllocError>
        ensures { OnOk result (self.new ≡ gather self.old (mark Symbol.NodeOpen)) }
    {
        match mem::replace(&mut self.name, None) {
            None => Ok(()),
            Some(name) => {
                let labels = mem::replace(&mut self.labels, Items::new(alloc));
                self.entries.push(Entry::Open(labels, name))
            }
        }
    }

    fn end_statement(&mut self, alloc: Global) -> Result<(), AllocError>
        ensures { OnOk result (self.new ≡ gather self.old (mark Symbol.Semicolon)) }
    {
        match mem::replace(&mut self.name, None) {
            None => Ok(()),
            Some(name) => {
                let labels = mem::replace(&mut self.labels, Items::new(alloc));
                let values = mem::replace(&mut self.values, Items::new(alloc));
                self.entries.push(Entry::Property(labels, name, values))
            }
        }
    }

    fn note_mark(&mut self, alloc: Global, symbol: Symbol) -> Result<(), AllocError>
        ensures { OnOk result (self.new ≡ gather self.old (mark symbol)) }
    {
        match symbol {
            Symbol::CellsOpen => {
                self.in_cells = true;
                Ok(())
            }
            Symbol::CellsClose => self.close_cells(alloc),
            Symbol::BytesClose => self.close_bytes(alloc),
            Symbol::NodeOpen => self.open_node(alloc),
            Symbol::NodeClose => self.entries.push(Entry::Close),
            Symbol::Semicolon => self.end_statement(alloc),
            _ => Ok(()),
        }
    }

    /// Takes the next token in.
    fn take(&mut self, alloc: Global, text: &[u8], token: Token) -> Result<(), AllocError>
        ensures { OnOk result (self.new ≡ gather self.old (piece_of text.now token)) }
    {
        let bytes = token_text(text, token);
        match token.kind {
            TokenKind::Label => {
                let front = bytes.split_at(bytes.len().saturating_sub(1)).0;
                self.labels.push(named(alloc, front, token.start)?)
            }
            TokenKind::Word => {
                self.name = Some(named(alloc, bytes, token.start)?);
                Ok(())
            }
            TokenKind::Number => self
                .cells
                .push(Cell::Number(number_value(bytes).unwrap_or(0))),
            TokenKind::Text => {
                let rest = bytes.split_at(bytes.len().min(1)).1;
                let spelled = string_value(alloc, rest)?;
                self.values.push(Value::Text(Bytes::from_vec(spelled)))
            }
            TokenKind::Pair => {
                let byte = (cell_of(bytes, 16).unwrap_or(0) % 256) as u8;
                self.bytes.append(&[byte])
            }
            TokenKind::Reference => {
                let rest = bytes.split_at(bytes.len().min(1)).1;
                self.note_reference(named(alloc, rest, token.start)?)
            }
            kind => self.note_mark(alloc, kind_and_word(kind, b"")),
        }
    }
}

impl Gathered {
    // The mark that closes the root is no entry.
    fn finish(self) -> Items<Entry>
        ensures { result ≡ without_last self.entries }
    {
        let Gathered {
            labels: _,
            name: _,
            values: _,
            cells: _,
            in_cells: _,
            bytes: _,
            mut entries,
        } = self;
        let _root = entries.pop();
        entries.trim();
        entries
    }
}

/// The entries of a source.
pub fn gathered_entries(alloc: Global, text: &[u8]) -> Result<Items<Entry>, AllocError>
    ensures { (tokens : List Token) (entries : List Entry)
        → Lexes text.now 0 Name tokens None
        → map (piece_of text.now) tokens ≡ source_pieces entries
        → IfOk result (λ found. found ≡ entries) }
{
    let mut gathered = Gathered::new(alloc);
    let mut at = 0;
    let mut mode = Mode::Name;
    'gathering: loop {
        match next_token(text, at, mode) {
            Ok(Some(token)) => {
                gathered.take(alloc, text, token)?;
                at = token.end;
                mode = mode_after(mode, token.kind);
            }
            Ok(None) => return Ok(gathered.finish()),
            Err(_) => return Ok(gathered.finish()),
        }
    }
}
