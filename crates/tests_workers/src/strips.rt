use cell_strip::{Part, Region};
use std::alloc::{AllocError, Global};

// The two cells 1 and 4 of a block of six.
#[tactic(auto, unfolding(cell_strip::specs::Regions::has))]
pub(crate) fn strided(alloc: Global) -> Result<bool, AllocError> {
    let mut whole = Part::root(alloc, 6)?;
    let mut part = whole.cut(
        Region {
            base: 1,
            count: 2,
            stride: 3,
            run: 1,
        },
        0,
    );
    part.set(4, 7);
    part.set(1, part.get(4) + 1);
    whole.set(0, 5);
    whole.set(2, whole.get(3));
    whole.set(5, -1);
    whole.join_part(part);
    let holds = whole.get(4) == 7 && whole.get(1) == 8 && whole.get(0) == 5 && whole.get(5) == -1;
    whole.free();
    Ok(holds)
}

#[tactic(auto, unfolding(cell_strip::specs::Regions::has))]
pub(crate) fn empty_region(alloc: Global) -> Result<bool, AllocError> {
    let mut whole = Part::root(alloc, 4)?;
    let part = whole.cut(
        Region {
            base: 0,
            count: 1,
            stride: 1,
            run: 0,
        },
        0,
    );
    whole.set(0, 3);
    let holds = whole.get(0) == 3;
    whole.join_part(part);
    whole.free();
    let none = Part::root(alloc, 0)?;
    none.free();
    Ok(holds)
}

// The columns of three rows of two cells each, in a block that begins at the address 10.
#[tactic(auto, unfolding(cell_strip::specs::Regions::has))]
pub(crate) fn columns(alloc: Global) -> Result<bool, AllocError> {
    let mut left = Part::root(alloc, 6)?;
    let mut right = left.cut(
        Region {
            base: 11,
            count: 3,
            stride: 2,
            run: 1,
        },
        10,
    );
    left.set(0, 1);
    left.set(2, 2);
    left.set(4, 3);
    right.set(1, left.get(4));
    right.set(3, left.get(2));
    right.set(5, left.get(0));
    let apart = left.either(&right, 3) == 2 && left.either(&right, 4) == 3;
    left.join_part(right);
    let holds = apart && left.get(1) == 3 && left.get(5) == 1;
    left.free();
    Ok(holds)
}

// Parts of two blocks, each of which is joined where it belongs.
#[tactic(auto, unfolding(cell_strip::specs::Regions::has))]
pub(crate) fn two_blocks(alloc: Global) -> Result<bool, AllocError> {
    let mut first = Part::root(alloc, 2)?;
    let Ok(mut second) = Part::root(alloc, 2) else {
        first.free();
        return Err(AllocError);
    };
    let region = Region {
        base: 0,
        count: 1,
        stride: 1,
        run: 1,
    };
    let mut one = first.cut(region, 0);
    let two = second.cut(region, 0);
    one.set(0, 1);
    first.join_part(one);
    second.join_part(two);
    let holds = first.get(0) == 1 && second.get(0) == 0;
    first.free();
    second.free();
    Ok(holds)
}

// Rows of three cells, each of which begins one cell behind the one before: the cells 0 to 4.
#[tactic(auto, unfolding(cell_strip::specs::Regions::has))]
pub(crate) fn overlapping_rows(alloc: Global) -> Result<bool, AllocError> {
    let mut whole = Part::root(alloc, 6)?;
    let mut part = whole.cut(
        Region {
            base: 0,
            count: 3,
            stride: 1,
            run: 3,
        },
        0,
    );
    part.set(2, 4);
    part.set(4, part.get(2));
    whole.set(5, 6);
    whole.join_part(part);
    let holds = whole.get(4) == 4 && whole.get(5) == 6;
    whole.free();
    Ok(holds)
}

pub(crate) fn cells_of_a_region() -> bool {
    let columns = Region {
        base: 11,
        count: 3,
        stride: 2,
        run: 1,
    };
    let of_columns = !columns.has(10)
        && columns.has(11)
        && !columns.has(12)
        && columns.has(15)
        && !columns.has(17);
    let one_row = Region {
        base: 7,
        count: 4_294_967_295,
        stride: 0,
        run: 2,
    };
    let of_row = one_row.has(8) && !one_row.has(9) && !one_row.has(18_446_744_073_709_551_615);
    of_columns && of_row && !Region::none().has(0)
}
