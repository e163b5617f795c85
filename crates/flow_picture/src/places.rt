//! The places of boxes, and those where arrows pass columns.
use crate::columns::Ends;
use crate::sizes::Size;
use cosem_data::memory::Memory;
use std::alloc::Global;

/// How far columns stand apart.
const GAP: u32 = 92;
/// How much room is below a box.
const BELOW_BOX: u32 = 24;
/// How much room is below a place where an arrow passes.
const BELOW_PASS: u32 = 12;
/// How high a place is where an arrow passes.
const PASS: u32 = 6;
/// Where the first column begins.
const MARGIN: u32 = 12;
/// Where the highest box stands, if no arrow leads back above it.
const TOP: u32 = 34;

/// A box, or a place where an arrow passes a column.
#[derive(Clone, Copy, Drop)]
pub(crate) struct Spot {
    /// The column in which it stands.
    pub column: usize,
    /// How large it is.
    pub size: Size,
    /// Its upper edge.
    pub top: u32,
    /// How much room is below it.
    below: u32,
    /// The middles of those before it, together.
    middles: u32,
    /// How many are before it.
    before: u32,
}

impl Spot {
    /// A spot in a column, with nothing before it.
    fn new(column: usize, size: Size, below: u32) -> Spot {
        Spot {
            column,
            size,
            top: 0,
            below,
            middles: 0,
            before: 0,
        }
    }

    /// Its middle, from above.
    pub fn middle(&self) -> u32 {
        self.top.saturating_add(self.size.height / 2)
    }

    /// The mean of the middles before it, if there are any.
    fn wish(&self) -> Option<u32> {
        self.middles.checked_div(self.before)
    }
}

/// From one spot to the next of an arrow, by their numbers.
#[derive(Clone, Copy, Drop)]
struct Step {
    from: usize,
    to: usize,
}

/// Where the arrows of two boxes pass columns.
#[derive(Clone, Copy, Drop)]
struct Passage {
    ends: Ends,
    /// The number of the first of its spots; the others follow.
    first: usize,
}

/// From where to where a column reaches.
#[derive(Clone, Copy, Drop)]
pub(crate) struct Column {
    /// Its left edge.
    pub left: u32,
    /// Its right edge.
    pub right: u32,
}

/// The spots of a picture: those of its boxes first, and then those where arrows pass.
#[derive(Drop)]
pub(crate) struct Grid {
    spots: Vec<Spot>,
    /// The steps of all arrows that lead to a column further on; those of arrows between the same boxes once.
    steps: Vec<Step>,
    passages: Vec<Passage>,
    columns: Vec<Column>,
    /// Where its lowest spot ends.
    pub bottom: u32,
}

impl Grid {
    /// The spots of boxes of these sizes in these columns, and of the arrows between them. The error is that memory was refused.
    pub fn new(
        alloc: Global,
        sizes: &[Size],
        columns: &[usize],
        links: &[Ends],
    ) -> Result<Grid, Memory> {
        let mut grid = Grid {
            spots: Vec::new(alloc),
            steps: Vec::new(alloc),
            passages: Vec::new(alloc),
            columns: Vec::new(alloc),
            bottom: 0,
        };
        grid.add_boxes(sizes, columns)?;
        for link in links {
            grid.add_passage(*link)?;
        }
        grid.place_columns()?;
        grid.place_spots(alloc, links)?;
        Ok(grid)
    }

    /// The spot with this number; one at the margin, if there is none.
    pub fn spot(&self, number: usize) -> Spot {
        let none = Size {
            width: 0,
            height: 0,
        };
        self.spots
            .get(number)
            .copied()
            .unwrap_or(Spot::new(0, none, 0))
    }

    /// From where to where this column reaches; nowhere, if there is none.
    pub fn column(&self, number: usize) -> Column {
        let nowhere = Column {
            left: MARGIN,
            right: MARGIN,
        };
        self.columns.get(number).copied().unwrap_or(nowhere)
    }

    /// Where the last column ends.
    pub fn right(&self) -> u32 {
        self.columns.last().map_or(MARGIN, |column| column.right)
    }

    /// The number of the first spot where the arrows between two boxes pass.
    pub fn passage(&self, ends: Ends) -> Option<usize> {
        self.passages
            .iter()
            .find(|passage| passage.ends == ends)
            .map(|passage| passage.first)
    }

    /// Whether an arrow leads to a column further on.
    pub fn goes_on(&self, ends: Ends) -> bool {
        self.spot(ends.source).column < self.spot(ends.target).column
    }

    /// How many of these arrows lead back, or to the same column.
    pub fn count_back(&self, links: &[Ends]) -> usize {
        links.iter().filter(|link| !self.goes_on(**link)).count()
    }

    /// Adds boxes of these sizes in these columns.
    fn add_boxes(&mut self, sizes: &[Size], columns: &[usize]) -> Result<(), Memory> {
        for (size, column) in sizes.iter().zip(columns) {
            self.spots.push(Spot::new(*column, *size, BELOW_BOX))?;
        }
        Ok(())
    }

    /// Adds the spots where an arrow passes columns, if no other arrow between the same boxes has them.
    fn add_passage(&mut self, ends: Ends) -> Result<(), Memory> {
        if !self.goes_on(ends) || self.passage(ends).is_some() {
            return Ok(());
        }
        let first = self.spots.len();
        self.passages.push(Passage { ends, first })?;
        let mut from = ends.source;
        let begin = self.spot(ends.source).column.saturating_add(1);
        for column in begin..self.spot(ends.target).column {
            let to = self.spots.len();
            self.add_pass(column)?;
            self.steps.push(Step { from, to })?;
            from = to;
        }
        self.steps.push(Step {
            from,
            to: ends.target,
        })?;
        Ok(())
    }

    /// Adds a place where an arrow passes a column.
    fn add_pass(&mut self, column: usize) -> Result<(), Memory> {
        let size = Size {
            width: 0,
            height: PASS,
        };
        self.spots.push(Spot::new(column, size, BELOW_PASS))?;
        Ok(())
    }

    /// Places the columns, each as wide as its widest box.
    fn place_columns(&mut self) -> Result<(), Memory> {
        let mut left = MARGIN;
        for number in 0..self.count_columns() {
            let right = left.saturating_add(self.width(number));
            self.columns.push(Column { left, right })?;
            left = right.saturating_add(GAP);
        }
        Ok(())
    }

    /// How many columns there are.
    fn count_columns(&self) -> usize {
        let mut count = 0;
        for spot in &self.spots {
            count = spot.column.saturating_add(1).max(count);
        }
        count
    }

    /// The width of a column.
    fn width(&self, column: usize) -> u32 {
        let mut width = 0;
        for spot in &self.spots {
            if spot.column == column {
                width = spot.size.width.max(width);
            }
        }
        width
    }

    /// Places the spots, column by column. Arrows that lead back have room above.
    fn place_spots(&mut self, alloc: Global, links: &[Ends]) -> Result<(), Memory> {
        let back = self.count_back(links).min(10) as u32;
        let top = TOP + 6 * back;
        for column in 0..self.columns.len() {
            let order = self.order(alloc, column)?;
            let bottom = self.place_column(top, &order);
            self.bottom = self.bottom.max(bottom);
            self.pass_on(column);
        }
        Ok(())
    }

    /// The spots of a column in their order from above: by the means of the middles before them, and then by their numbers.
    fn order(&self, alloc: Global, column: usize) -> Result<Vec<Standing>, Memory> {
        let mut order = Vec::new(alloc);
        for (number, spot) in self.spots.iter().enumerate() {
            if spot.column == column {
                order.push(Standing {
                    wish: spot.wish(),
                    number,
                })?;
            }
        }
        order.sort()?;
        Ok(order)
    }

    /// Places spots one below another, from this edge on, and no higher than they wish; where the last ends.
    fn place_column(&mut self, top: u32, order: &[Standing]) -> u32 {
        let mut at = top;
        for standing in order {
            if let Some(spot) = self.spots.get_mut(standing.number) {
                let half = spot.size.height / 2;
                let wish = standing.wish.map_or(0, |wish| wish.saturating_sub(half));
                spot.top = at.max(wish);
                at = spot
                    .top
                    .saturating_add(spot.size.height)
                    .saturating_add(spot.below);
            }
        }
        at
    }

    /// Lets the spots after those of a column know where these stand.
    fn pass_on(&mut self, column: usize) {
        for step in &self.steps {
            pass_middle(column, *step, &mut self.spots);
        }
    }
}

/// Tells the spot to which a step leads where the one stands from which it leads, if that is in this column.
fn pass_middle(column: usize, step: Step, spots: &mut [Spot]) {
    let Some(from) = spots.get(step.from).copied() else {
        return;
    };
    if from.column != column {
        return;
    }
    if let Some(to) = spots.get_mut(step.to) {
        to.middles = to.middles.saturating_add(from.middle());
        to.before = to.before.saturating_add(1);
    }
}

/// A spot of a column, by what it wishes.
#[derive(Clone, Copy, PartialEq, Eq, PartialOrd, Ord, Drop)]
struct Standing {
    /// The mean of the middles before it, if there are any.
    wish: Option<u32>,
    /// Its number.
    number: usize,
}
