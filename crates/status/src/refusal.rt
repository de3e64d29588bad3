// Why a table is not put.

#[derive(Clone, Copy, PartialEq, Eq, Debug)]
pub enum TableRefusal {
    // The buffer is shorter than the table.
    NoRoom,
    // There are more than 62.
    TooManyPipes,
}
