//! The rows of one rack in a table: how many, where the newest stands, and its run.
ghost use Rattle.std.specs.Prelude.{◌≡◌, ◌<◌, ◌≤◌, IfErr, IfOk, IfSome, IfNone, length, true};
ghost use Rattle.racks.specs.RackRows.{BothRacks, OwnRows, Refuses};
ghost use Rattle.racks.specs.Rows.{is_rack, others};

use crate::Row;
use record::refusal::Refusal;
use runs::Run;
use runs::row::is_row;

/// How many rows a rack has, and the place of the newest in the table, 0 where there is none.
#[derive(Clone, Copy, Debug, PartialEq, Eq)]
pub struct RackRows {
    pub count: u32,
    pub newest: usize,
}

// The rows of rack 0 and those of rack 1; none where a row in use is of another rack. One walk for all three: a chain for each of them took
// 1,895 instructions in place of 890 with 63 rows in use.
#[tactic(auto, using(crate::proofs::RackRows::none_walked, crate::proofs::RackRows::walked_zero, crate::proofs::RackRows::walked_one))]
fn racks_of(table: &[Row], used: usize) -> Option<(RackRows, RackRows)>
    requires { (used ≤ 64) × (length table.now ≡ 64) }
    ensures both { IfSome result (λ p. BothRacks table.now used p.0 p.1) }
    ensures other { IfNone result (others table.now used ≡ true) }
    ensures within { IfSome result (λ p. (p.0.newest < 64) × (p.1.newest < 64)) }
{
    let mut zero = RackRows {
        count: 0,
        newest: 0,
    };
    let mut one = zero;
    for (i, row) in table[..used].iter().enumerate() {
        if row.rack == 0 {
            zero = RackRows {
                count: zero.count + 1,
                newest: i,
            };
        } else if row.rack == 1 {
            one = RackRows {
                count: one.count + 1,
                newest: i,
            };
        } else {
            return None;
        }
    }
    Some((zero, one))
}

// Whether a rack may have so many rows, and this newest one.
#[tactic(auto, unfolding(crate::specs::Rows::is_rack))]
fn is_rack(count: u32, newest: Run) -> bool
    ensures { result ≡ is_rack count newest }
{
    count <= 32 && (count == 0 || is_row(newest))
}

// The rows of a rack in a table of which so many rows are in use, and the newest run, that of row 0 where it has none. The newest run of the
// other rack is judged too.
#[tactic(auto, using(crate::proofs::RackRows::no_rack, crate::proofs::RackRows::other_length, crate::proofs::RackRows::more_in_use, crate::proofs::RackRows::other_rack, crate::proofs::RackRows::not_held, crate::proofs::RackRows::own_zero, crate::proofs::RackRows::own_one))]
pub(crate) fn own_rows(table: &[Row], used: u32, rack: u32) -> Result<(RackRows, Run), Refusal>
    ensures own { IfOk result (λ o. OwnRows table.now used rack o.0 o.1) }
    ensures refused { IfErr result (Refuses table.now used rack) }
    ensures within { IfOk result (λ o. o.0.newest < length table.now) }
{
    if rack > 1 {
        return Err(Refusal::NoRack);
    }
    if table.len() != 64 || used > 64 {
        return Err(Refusal::BadTable);
    }
    let (zero, one) = racks_of(table, used as usize).ok_or(Refusal::BadTable)?;
    let newest_of_zero = table[zero.newest].run;
    let newest_of_one = table[one.newest].run;
    let holds = is_rack(zero.count, newest_of_zero) & is_rack(one.count, newest_of_one);
    if !holds {
        Err(Refusal::BadTable)
    } else if rack == 0 {
        Ok((zero, newest_of_zero))
    } else {
        Ok((one, newest_of_one))
    }
}
