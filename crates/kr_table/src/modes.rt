//! Modes with their compatibility and their conversion.
ghost use Rattle.std.specs.Prelude.{◌≡◌, ℕ, ◌+◌, ◌-◌, ◌*◌, ◌<◌, ◌≤◌, [], length, map, string_bytes, IfSome, IfNone};
ghost use Rattle.kr_model.specs.ModeNames.{name_of};
ghost use Rattle.kr_table.specs.Matrix.{Matrix, IsMatrix, matrix_of, ok_of, convert_of, IsNamed, IsRowOf, AreRowsOf};

use kr_model::Mode;
use std::marker::Model;

/// 1 to 15 modes by name, with their compatibility and their conversion. The mode at place `i` of
/// the names is `i + 1`, and 0 is no lock. No call takes memory.
#[derive(Debug)]
pub struct Modes {
    names: Vec<String>,
    compatible: Vec<bool>,
    conversion: Vec<Mode>,
    /// For no lock and for each mode requested, the modes held that it conflicts with, each as a bit.
    rows: [u16; 16],
}

impl Model for Modes {
    ghost use Rattle.kr_table.specs.Matrix.{Matrix, IsMatrix, AreRowsOf, matrix_of};

    ghost Value = { Matrix };

    ghost view = { λ s. matrix_of s.names.items s.compatible.items s.conversion.items };

    ghost invariant = { λ s. let x = matrix_of s.names.items s.compatible.items s.conversion.items in IsMatrix x × AreRowsOf x s.rows };
}

/// The place of two modes in a square of all modes, which has a row for each first one.
fn place(count: usize, first: Mode, second: Mode) -> usize
    requires few { count ≤ 15 }
    requires first { (0 < first) × (first ≤ count) }
    requires second { (0 < second) × (second ≤ count) }
    ensures place { result ≡ (first - 1) * count + (second - 1) }
    ensures in_square { result < count * count }
{
    (first as usize - 1) * count + (second as usize - 1)
}

/// Whether a request in a mode is compatible with a held mode, by the square of the modes with these names.
fn entry(names: &[String], ok: &[bool], requested: Mode, held: Mode) -> bool
    requires few { length names.now ≤ 15 }
    requires square { length ok.now ≡ length names.now * length names.now }
    requires requested { (0 < requested) × (requested ≤ length names.now) }
    requires held { (0 < held) × (held ≤ length names.now) }
    ensures { result ≡ ok_of (matrix_of names.now ok.now []) requested held }
{
    ok[place(names.len(), requested, held)]
}

/// The row of a mode, by the square of the modes with these names.
fn row_of(names: &[String], ok: &[bool], requested: Mode) -> u16
    requires few { length names.now ≤ 15 }
    requires square { length ok.now ≡ length names.now * length names.now }
    requires requested { (0 < requested) × (requested ≤ length names.now) }
    ensures { IsRowOf (matrix_of names.now ok.now []) requested result }
{
    let mut row: u16 = 0;
    for held in 1..names.len() as Mode + 1 {
        if !entry(names, ok, requested, held) {
            row |= 1 << held;
        }
    }
    row
}

/// The rows of no lock, which conflicts with nothing, and of each mode, by the square of the modes with these names.
fn rows_of(names: &[String], ok: &[bool]) -> [u16; 16]
    requires few { length names.now ≤ 15 }
    requires square { length ok.now ≡ length names.now * length names.now }
    ensures { AreRowsOf (matrix_of names.now ok.now []) result }
{
    let mut rows = [0; 16];
    for requested in 1..names.len() as Mode + 1 {
        rows[requested as usize] = row_of(names, ok, requested);
    }
    rows
}

impl Modes {
    /// Modes with these names. Of `m` names, entry `(q - 1) * m + h - 1` of `ok` says whether a
    /// request in mode `q` is compatible with a lock held in mode `h`, and entry
    /// `(h - 1) * m + q - 1` of `convert` is the mode of one who holds `h` and requests `q`.
    ///
    /// There are 1 to 15 names, each of 1 to 24 bytes from 32 to 126; no name is `none`, and none
    /// stands twice. `ok` and `convert` have `m * m` entries, those of `convert` from 1 to `m`.
    pub fn new(names: Vec<String>, ok: Vec<bool>, convert: Vec<Mode>) -> Modes
        requires { IsMatrix (matrix_of names.items ok.items convert.items) }
        ensures { result ≡ matrix_of names.items ok.items convert.items }
    {
        let rows = rows_of(&names, &ok);
        Modes {
            names,
            compatible: ok,
            conversion: convert,
            rows,
        }
    }

    /// How many modes there are, from 1 to 15: the greatest mode.
    pub fn count(&self) -> Mode
        ensures count { result ≡ length self.now.names }
        ensures matrix { IsMatrix self.now }
    {
        self.names.len() as Mode
    }

    /// Whether a request in one mode is compatible with a lock that another holds. Where
    /// nothing is held or nothing is requested, it is.
    pub fn ok(&self, requested: Mode, held: Mode) -> bool
        requires requested_is_mode { requested ≤ length self.now.names }
        requires held_is_mode { held ≤ length self.now.names }
        ensures { result ≡ ok_of self.now requested held }
    {
        if requested == 0 || held == 0 {
            return true;
        }
        self.compatible[place(self.names.len(), requested, held)]
    }

    /// The modes that a request in one mode conflicts with, each as a bit: bit `h` is set
    /// exactly where `h` is a mode and `ok` of the request and `h` is false.
    pub fn row(&self, requested: Mode) -> u16
        requires { requested ≤ length self.now.names }
        ensures { IsRowOf self.now requested result }
    {
        self.rows[requested as usize]
    }

    /// The mode of one who holds a mode and requests another. Who holds no lock gets the mode asked
    /// for, and who requests none keeps the one held.
    pub fn convert(&self, held: Mode, requested: Mode) -> Mode
        requires held_is_mode { held ≤ length self.now.names }
        requires requested_is_mode { requested ≤ length self.now.names }
        ensures { result ≡ convert_of self.now held requested }
    {
        if held == 0 {
            return requested;
        }
        if requested == 0 {
            return held;
        }
        self.conversion[place(self.names.len(), held, requested)]
    }

    /// The name of a mode, and `none` for none.
    pub fn name(&self, mode: Mode) -> &str
        requires { mode ≤ length self.now.names }
        ensures { result.now ≡ name_of self.now.names mode }
    {
        if mode == 0 {
            return "none";
        }
        self.names[mode as usize - 1].as_str()
    }

    /// The names of all modes, that of mode 1 first.
    pub fn names(&self) -> &[String]
        ensures names { map string_bytes result.now ≡ self.now.names }
        ensures one_each { length result.now ≡ length self.now.names }
    {
        &self.names
    }

    /// The square that `ok` goes by, row after row, as `new` takes it.
    pub fn compatible(&self) -> &[bool]
        ensures { result.now ≡ self.now.compatible }
    {
        &self.compatible
    }

    /// The square that `convert` goes by, row after row, as `new` takes it.
    pub fn conversion(&self) -> &[Mode]
        ensures { result.now ≡ self.now.conversion }
    {
        &self.conversion
    }

    /// The mode with exactly this name. `none` is the name of no mode.
    pub fn find(&self, name: &str) -> Option<Mode>
        ensures some { IfSome result (IsNamed self.now name.now) }
        ensures only { IfSome result (λ m. (k : ℕ) → IsNamed self.now name.now k → k ≡ m) }
        ensures none { IfNone result ((m : ℕ) → IsNamed self.now name.now m → ⊥) }
    {
        for mode in 1..self.count() + 1 {
            if self.name(mode) == name {
                return Some(mode);
            }
        }
        None
    }
}

/// By hand, so that crates above call it by its contract and don't prove a destructor of their own.
impl Drop for Modes {
    fn drop(self) {
        let Modes {
            names: _,
            compatible: _,
            conversion: _,
            rows: _,
        } = self;
    }
}
