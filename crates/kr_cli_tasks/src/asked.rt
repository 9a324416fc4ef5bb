//! What is asked of the program.
ghost use Rattle.std.specs.Prelude.{◌≡◌, ◌<◌, ◌≤◌, IfSome};
ghost use Rattle.std.specs.Fmt.{decimal};

use kr_cli::number_of;

/// What is asked.
#[derive(Drop)]
pub struct Asked<'a> {
    /// The word that names the table.
    pub table: &'a str,
    /// What is done under it.
    pub form: Form<'a>,
}

/// The form of the words.
#[derive(Drop)]
pub enum Form<'a> {
    /// A task is done.
    Plain(Task<'a>),
    /// The table is checked, and then the script that a word names is run by so many workers, each a thread: status 0 where
    /// the run is serializable, and 1 where it isn't or the table is rejected.
    Threads(&'a str, Workers),
}

/// What is done under a table, but for runs by several threads.
#[derive(Drop)]
pub enum Task<'a> {
    /// The table is checked: status 0 where it is accepted, and 1 where it is rejected.
    Check,
    /// The script that a word names is run: status 0 where the run is serializable, and 1 where it isn't.
    Run(&'a str),
    /// The scripts that words name are judged, and no verdict is shown before all are: status 0 where each run is serializable,
    /// and 1 where one isn't.
    Judge(Vec<&'a str>),
}

/// How many workers there are: 1 to 64.
#[derive(Clone, Copy)]
pub struct Workers {
    count: usize,
    ghost bounds: { (0 < count) × (count ≤ 64) },
}

impl Workers {
    /// As many as there are where no word says how many.
    pub(crate) const USUAL: Workers = Workers { count: 4 };

    /// The number that a word is: 1 to 64 in decimal digits, without a leading zero.
    pub(crate) fn of(word: &str) -> Option<Workers>
        ensures { IfSome result (λ workers. word.now ≡ decimal workers.count) }
    {
        match number_of(word) {
            Some(count) if count <= 64 => Some(Workers { count }),
            _ => None,
        }
    }

    /// How many there are.
    pub fn count(self) -> usize
        ensures value { result ≡ self.count }
        ensures within { (0 < result) × (result ≤ 64) }
    {
        self.count
    }
}
