// The fixed statements, each in a function of its own with one call of the database, and what each means on the list of
// entries of a store that is told.
ghost use Rattle.std.specs.Prelude.{◌≡◌, ◌⊎◌, false, [], ◌∷◌, map, filter, length, MatchResult, IfOk, OnOk, IsTrue};
ghost use Rattle.keeper_sqlite.specs.Kept.{Entry, IsTold, HoldsRows, HoldsMore, Looked, no_schema, shown, is_at, is_for, is_row};
ghost use Rattle.keeper_sqlite.specs.Kept.{WhereTold, EntriesStay, bodied};
ghost use Rattle.sqlite.specs.Held.{state};
ghost use Rattle.sqlite.specs.State.{HasCleanDisk};
ghost use Rattle.sqlite_disk.specs.Disk.{MoreFaults};
ghost use Rattle.sqlite_sql.specs.Aggregate.{count};

use sqlite::{Alter, Connection, Error, Row, params};

/// Makes the table, where there is none yet.
pub(crate) fn create<S: Alter>(conn: &mut Connection<S>) -> Result<usize, Error>
    ensures clean { HasCleanDisk (state S.Store conn.new) → HasCleanDisk (state S.Store conn.old) }
    ensures rows { HasCleanDisk (state S.Store conn.new) → (state S.Store conn.old).now.schema ≡ no_schema
        → (state S.Store conn.old).in_transaction ≡ false → OnOk result (HoldsRows [] (state S.Store conn.new)) }
    ensures closes { HasCleanDisk (state S.Store conn.new) → IsTrue (state S.Store conn.old).is_open
        → IsTrue (state S.Store conn.new).is_open
        ⊎ MoreFaults (state S.Store conn.old).faults (state S.Store conn.new).faults }
{
    conn.execute(
        "CREATE TABLE kept (place INTEGER PRIMARY KEY AUTOINCREMENT, kind INTEGER NOT NULL, desk INTEGER NOT NULL, \
         holder BLOB NOT NULL, reference BLOB NOT NULL, body BLOB NOT NULL, UNIQUE (kind, desk, reference))",
        &[],
    )
}

/// Adds an entry at the end. At a refusal the entries are as before.
pub(crate) fn insert<'x, S: Alter>(
    conn: &mut Connection<S>,
    kind: u32,
    desk: u32,
    holder: &'x [u8],
    reference: &'x [u8],
    body: &'x [u8],
) -> Result<usize, Error>
    ensures told { IsTold (state S.Store conn.new) → IsTold (state S.Store conn.old) }
    ensures rows { WhereTold (state S.Store conn.old) (state S.Store conn.new) (λ entries.
        MatchResult result (λ _. HoldsMore entries kind desk holder.now reference.now body.now (state S.Store conn.new))
        (λ _. HoldsRows entries (state S.Store conn.new))) }
{
    conn.execute(
        "INSERT INTO kept (kind, desk, holder, reference, body) VALUES (?1, ?2, ?3, ?4, ?5)",
        params![kind, desk, holder, reference, body],
    )
}

/// Gives the one entry of a key another body. At a refusal the entries are as before.
pub(crate) fn update<'x, S: Alter>(
    conn: &mut Connection<S>,
    kind: u32,
    desk: u32,
    reference: &'x [u8],
    body: &'x [u8],
) -> Result<usize, Error>
    ensures told { IsTold (state S.Store conn.new) → IsTold (state S.Store conn.old) }
    ensures rows { WhereTold (state S.Store conn.old) (state S.Store conn.new) (λ entries.
        (e : Entry) → filter (is_row kind desk reference.now) entries ≡ e ∷ []
        → MatchResult result (λ _. HoldsRows (bodied kind desk reference.now body.now entries) (state S.Store conn.new))
        (λ _. HoldsRows entries (state S.Store conn.new))) }
{
    conn.execute(
        "UPDATE kept SET body = ?4 WHERE kind = ?1 AND desk = ?2 AND reference = ?3",
        params![kind, desk, reference, body],
    )
}

/// The reference and body of the entry of a key. The entries are as before, whatever is answered.
pub(crate) fn select_row<S: Alter>(
    conn: &mut Connection<S>,
    kind: u32,
    desk: u32,
    reference: &[u8],
) -> Result<Vec<Row>, Error>
    ensures told { IsTold (state S.Store conn.new) → IsTold (state S.Store conn.old) }
    ensures kept { EntriesStay (state S.Store conn.old) (state S.Store conn.new) }
    ensures rows { WhereTold (state S.Store conn.old) (state S.Store conn.new) (λ entries.
        IfOk result (λ rows. Looked entries kind desk reference.now rows.items)) }
{
    conn.query_all(
        "SELECT reference, body FROM kept WHERE kind = ?1 AND desk = ?2 AND reference = ?3",
        params![kind, desk, reference],
    )
}

/// The reference and body of each entry of a table and desk, in the order of adding. The entries are as before,
/// whatever is answered.
pub(crate) fn select_desk<S: Alter>(
    conn: &mut Connection<S>,
    kind: u32,
    desk: u32,
) -> Result<Vec<Row>, Error>
    ensures told { IsTold (state S.Store conn.new) → IsTold (state S.Store conn.old) }
    ensures kept { EntriesStay (state S.Store conn.old) (state S.Store conn.new) }
    ensures rows { WhereTold (state S.Store conn.old) (state S.Store conn.new) (λ entries.
        IfOk result (λ rows. rows.items ≡ map shown (filter (is_at kind desk) entries))) }
{
    conn.query_all(
        "SELECT reference, body FROM kept WHERE kind = ?1 AND desk = ?2 ORDER BY place",
        params![kind, desk],
    )
}

/// Those of them that are of a holder, in the order of adding. The entries are as before, whatever is answered.
pub(crate) fn select_holder<S: Alter>(
    conn: &mut Connection<S>,
    kind: u32,
    desk: u32,
    holder: &[u8],
) -> Result<Vec<Row>, Error>
    ensures told { IsTold (state S.Store conn.new) → IsTold (state S.Store conn.old) }
    ensures kept { EntriesStay (state S.Store conn.old) (state S.Store conn.new) }
    ensures rows { WhereTold (state S.Store conn.old) (state S.Store conn.new) (λ entries.
        IfOk result (λ rows. rows.items ≡ map shown (filter (is_for kind desk holder.now) entries))) }
{
    conn.query_all(
        "SELECT reference, body FROM kept WHERE kind = ?1 AND desk = ?2 AND holder = ?3 ORDER BY place",
        params![kind, desk, holder],
    )
}

/// One row with the number of the entries of a table and desk. The entries are as before, whatever is answered.
pub(crate) fn select_count<S: Alter>(
    conn: &mut Connection<S>,
    kind: u32,
    desk: u32,
) -> Result<Vec<Row>, Error>
    ensures told { IsTold (state S.Store conn.new) → IsTold (state S.Store conn.old) }
    ensures kept { EntriesStay (state S.Store conn.old) (state S.Store conn.new) }
    ensures rows { WhereTold (state S.Store conn.old) (state S.Store conn.new) (λ entries.
        IfOk result (λ rows. rows.items ≡ (count (length (filter (is_at kind desk) entries)) ∷ []) ∷ [])) }
{
    conn.query_all(
        "SELECT COUNT(*) FROM kept WHERE kind = ?1 AND desk = ?2",
        params![kind, desk],
    )
}
