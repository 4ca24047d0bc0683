// The value table: lent rows of four words (identifier, error byte, start, length) over a lent pool of bytes.
ghost use Rattle.std.specs.Prelude.{◌≡◌, ◌/◌, ◌%◌, length};
ghost use Rattle.model.specs.Values as Model;
ghost use Rattle.uds.specs.Table.{row_of, Finds};
ghost use Rattle.uds.specs.Values.{value_at, table_of, row_for, Says};

use super::nrc::Nrc;
use super::table::Column;

const ROW_WORDS: usize = 4;

const IDENTIFIER: Column = Column {
    from: 0,
    step: ROW_WORDS,
};

const ERR: Column = Column {
    from: 1,
    step: ROW_WORDS,
};

const START: Column = Column {
    from: 2,
    step: ROW_WORDS,
};

const LEN: Column = Column {
    from: 3,
    step: ROW_WORDS,
};

// What a row reads as that is not there, or that does not lie where and as it should.
const MISSING: u8 = Nrc::CONDITIONS_NOT_CORRECT;

const OUTSIDE: u8 = Nrc::CONDITIONS_NOT_CORRECT;

const TOO_LONG: u8 = Nrc::CONDITIONS_NOT_CORRECT;

// Where bytes stand in the pool.
#[derive(Clone, Copy, PartialEq, Eq)]
pub struct Place {
    pub start: usize,
    pub len: usize,
}

// An error byte is the low byte of its word.
fn low_byte(x: u32) -> u8
    ensures { result ≡ x % 256 }
{
    (x % 256) as u8
}

pub fn find_value(values: &[u32], identifier: u16) -> Option<usize>
    ensures { Finds (Model.is_value identifier) (value_at values.now) (length values.now / 4) result }
{
    IDENTIFIER.find(values, values.len() / ROW_WORDS, u32::from(identifier))
}

// What a row that was found says: where its bytes stand, or an error byte. One that is missing, or lies outside the pool, or is longer than the limit, reads as an error,
// whatever its error byte.
pub fn row_value(values: &[u32], pool: &[u8], row: Option<usize>, limit: usize) -> Result<Place, u8>
    ensures { Says pool.now limit (row_of (value_at values.now) row) result }
{
    let Some(i) = row else {
        return Err(MISSING);
    };
    let err = low_byte(ERR.cell(values, i));
    let start = START.cell(values, i) as usize;
    let len = LEN.cell(values, i) as usize;
    let end = start + len;
    if pool.len() < end {
        return Err(OUTSIDE);
    }
    if limit < len {
        return Err(TOO_LONG);
    }
    if err != 0 {
        return Err(err);
    }
    Ok(Place { start, len })
}

// What the table says of an identifier: the first row for it counts.
pub fn value(values: &[u32], pool: &[u8], identifier: u16, limit: usize) -> Result<Place, u8>
    ensures { Says pool.now limit (row_for (table_of values.now pool.now) identifier) result }
{
    row_value(values, pool, find_value(values, identifier), limit)
}
