// Rows of runs.
use crate::file_rows::TWO_ROUNDS;
use crate::rank_rows::RANKS;
use crate::rows::try_rows;
use crate::small_rows::SMALL_PROGRAMS;
use std::test::Fail;

#[test]
fn runs_make_their_texts(rt: HostRuntime) -> Result<(), Fail> {
    for rows in [RANKS, TWO_ROUNDS, SMALL_PROGRAMS] {
        try_rows(&rt, rt.alloc(), rows)?;
    }
    Ok(())
}
