//! Paths: lists of names.
ghost use Rattle.std.specs.Prelude.{◌≡◌, ◌==◌, ◌++◌, ◌↔◌, ◌<◌, [], ◌∷◌, List, ℕ, length, refl, Some, IsSome, IsTrue, IfOk, OnOk, OnErr, All, slice_get};
ghost use Rattle.std.specs.Option.{option_copied, option_to_list};
ghost use Rattle.std.specs.Ordering.{nat_cmp};
ghost use Rattle.std.specs.Cmp.Lexicographic.{pointwise, slice_cmp, nat_list_eq_equiv, nat_list_cmp_total, lists_equiv, lists_total, lists_ties, texts_ties};
ghost use Rattle.std.specs.Cmp.{partial_equiv_from_equiv, partial_order_from_agreeing_total};
ghost use Rattle.hv_text.specs.Path.{IsNameByte, IsName, IsPathPrefix, ArePathNames, slashed, path_text, ReadsNames, Reads};

use crate::bytes::Bytes;
use crate::front::front_len;
use crate::strip::strip_front;
use std::alloc::{AllocError, Global};
use std::cmp::Ordering;
use std::marker::Model;

/// A list of names. The root is the empty list.
#[derive(Debug, Drop)]
pub struct Path {
    names: Vec<Bytes>,
}

impl Model for Path {
    ghost use Rattle.std.specs.Prelude.{List, ℕ};

    ghost Value = { List (List ℕ) };

    ghost view = { λ p. p.names.items };
}

/// Why a text gave no path.
#[derive(Debug, Drop)]
pub enum PathRefusal {
    /// No path has this text.
    NotAPath,
    /// Memory ran out.
    Memory(AllocError),
}

fn is_name_byte(byte: u8) -> bool
    ensures { IsTrue result ↔ IsNameByte byte }
{
    byte.is_ascii_alphanumeric() || matches!(byte, b'.' | b'_' | b'-')
}

fn are_name_bytes(text: &[u8]) -> bool
    ensures { IsTrue result ↔ All IsNameByte text.now }
{
    text.iter().all(|byte| is_name_byte(*byte))
}

/// Whether a text is a name.
pub fn is_name(text: &[u8]) -> bool
    ensures { IsTrue result ↔ IsName text.now }
{
    if text.is_empty() {
        return false;
    }
    if text.len() > 31 {
        return false;
    }
    if text == b".".as_slice() {
        return false;
    }
    if text == b"..".as_slice() {
        return false;
    }
    are_name_bytes(text)
}

fn is_prefix(one: &[Bytes], other: &[Bytes]) -> bool
    ensures { IsTrue result ↔ IsPathPrefix one.now other.now }
{
    if one.len() > other.len() {
        return false;
    }
    for (place, name) in one.iter().enumerate() {
        if name.as_slice() != other[place].as_slice() {
            return false;
        }
    }
    true
}

fn push_name(alloc: Global, names: &mut Vec<Bytes>, name: &[u8]) -> Result<(), AllocError>
    ensures { OnOk result (names.new.items ≡ names.old.items ++ name.now ∷ []) }
{
    names.push(Bytes::from_vec(Vec::from_slice(alloc, name)?))?;
    Ok(())
}

fn read_names(alloc: Global, text: &[u8]) -> Result<Vec<Bytes>, PathRefusal>
    ensures found { IfOk result (λ names.
        ArePathNames names.items × (text.now ≡ slashed names.items)) }
    ensures only { (names : List (List ℕ))
        → ArePathNames names → text.now ≡ slashed names → ReadsNames result names }
{
    let mut names = Vec::new(alloc);
    let mut rest = text;
    while let Some(after) = strip_front(rest, b"/") {
        let (name, behind) = after.split_at(front_len(after, b'/'));
        if !is_name(name) {
            return Err(PathRefusal::NotAPath);
        }
        push_name(alloc, &mut names, name).map_err(PathRefusal::Memory)?;
        rest = behind;
    }
    if !rest.is_empty() {
        return Err(PathRefusal::NotAPath);
    }
    Ok(names)
}

fn push_names(to: &mut Bytes, names: &[Bytes]) -> Result<(), AllocError>
    ensures { OnOk result (to.new ≡ to.old ++ slashed names.now) }
{
    for name in names {
        to.append(b"/")?;
        to.append(name.as_slice())?;
    }
    Ok(())
}

impl Path {
    /// The root.
    pub fn root(alloc: Global) -> Path
        ensures { result ≡ [] }
    {
        Path {
            names: Vec::new(alloc),
        }
    }

    /// Reads `/`, or one or more names, each after a `/`.
    pub fn read(alloc: Global, text: &[u8]) -> Result<Path, PathRefusal>
        // The text is that of what was read.
        ensures found { IfOk result (λ path. ArePathNames path × (text.now ≡ path_text path)) }

        // The text of a path is read as this path, unless memory runs out.
        ensures only { (names : List (List ℕ))
            → ArePathNames names → text.now ≡ path_text names → Reads result names }
    {
        if text == b"/".as_slice() {
            return Ok(Path::root(alloc));
        }
        let names = read_names(alloc, text)?;
        if names.is_empty() {
            return Err(PathRefusal::NotAPath);
        }
        Ok(Path { names })
    }

    /// How many names there are.
    pub fn len(&self) -> usize
        ensures { result ≡ length self.now }
    {
        self.names.len()
    }

    /// Whether this is the root.
    pub fn is_empty(&self) -> bool
        ensures { IsTrue result ↔ (length self.now ≡ 0) }
    {
        self.names.is_empty()
    }

    /// The name at an index, or nothing past the last.
    pub fn at(&self, place: usize) -> Option<&[u8]>
        ensures { option_copied result ≡ slice_get self.now place }
    {
        match self.names.get(place) {
            Some(name) => Some(name.as_slice()),
            None => None,
        }
    }

    /// Adds a name at the end. At `Err` nothing has changed.
    pub fn push(&mut self, name: Bytes) -> Result<(), AllocError>
        ensures ok { OnOk result (self.new ≡ self.old ++ name ∷ []) }
        ensures err { OnErr result (self.new ≡ self.old) }
    {
        self.names.push(name)?;
        Ok(())
    }

    /// Takes the last name away.
    pub fn pop(&mut self) -> Option<Bytes>
        ensures names { self.old ≡ self.new ++ option_to_list result }
        ensures some { IsSome result ↔ (0 < length self.old) }
    {
        self.names.pop()
    }

    /// Whether the other path begins with all the names of this one.
    pub fn is_prefix_of(&self, other: &Path) -> bool
        ensures { IsTrue result ↔ IsPathPrefix self.now other.now }
    {
        is_prefix(&self.names, &other.names)
    }

    /// The text that is read as this path.
    pub fn text(&self, alloc: Global) -> Result<Bytes, AllocError>
        ensures { IfOk result (λ text. text ≡ path_text self.now) }
    {
        let mut text = Bytes::from_vec(Vec::new(alloc));
        if self.is_empty() {
            text.append(b"/")?;
            return Ok(text);
        }
        push_names(&mut text, &self.names)?;
        Ok(text)
    }
}

impl Clone for Path {
    // A clone has the same names.
    ghost is_clone = { λ path copy. copy ≡ path };

    fn clone(&self) -> Result<Path, AllocError> {
        Ok(Path {
            names: self.names.clone()?,
        })
    }
}

impl PartialEq for Path {
    ghost eq = { pointwise (pointwise ◌==◌) };

    ghost laws = { partial_equiv_from_equiv (lists_equiv nat_list_eq_equiv) };

    fn eq(&self, other: &Path) -> bool {
        self.names == other.names
    }
}

impl Eq for Path {
    ghost laws = { lists_equiv nat_list_eq_equiv };
}

impl PartialOrd for Path {
    ghost partial_cmp = { λ one other. Some (slice_cmp (slice_cmp nat_cmp) one other) };

    ghost laws = { partial_order_from_agreeing_total (slice_cmp (slice_cmp nat_cmp))
        (lists_total nat_list_cmp_total)
        (λ one other. refl)
        (lists_ties (slice_cmp nat_cmp) texts_ties) };

    fn partial_cmp(&self, other: &Path) -> Option<Ordering> {
        Some(self.cmp(other))
    }
}

/// The order of names, one after the other: a folder is just before what lies in it.
impl Ord for Path {
    ghost cmp = { slice_cmp (slice_cmp nat_cmp) };

    ghost total = { lists_total nat_list_cmp_total };

    ghost matches_partial_cmp = { λ one other. refl };

    ghost matches_eq = { lists_ties (slice_cmp nat_cmp) texts_ties };

    fn cmp(&self, other: &Path) -> Ordering {
        self.names.cmp(&other.names)
    }
}
