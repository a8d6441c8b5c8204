// The power models that bill.
use book::Book;
use power::{Cube, Floor, Measured, PowerFault, SETTING_VALUES};

// A model with the draws 0, 1, 3, 6 and so on.
fn measured() -> Result<Measured, PowerFault> {
    let mut draws = [0; SETTING_VALUES];
    let mut draw = 0u32;
    for (setting, element) in draws.iter_mut().enumerate() {
        draw = draw.saturating_add(setting as u32);
        *element = draw;
    }
    let mut model = Measured::new();
    model.load_draws(&draws)?;
    Ok(model)
}

// Two cubes, the greatest cube, a floor over a cube, and a measured model.
#[derive(Drop)]
pub(super) struct Models {
    fixed: Cube,
    plain: Cube,
    greatest: Cube,
    floor: Floor<Cube>,
    measured: Measured,
}

impl Models {
    pub(super) fn new() -> Result<Models, PowerFault> {
        let plain = Cube::new(0, 1)?;
        Ok(Models {
            fixed: Cube::new(10, 1)?,
            plain,
            greatest: Cube::new(66_000_000, 255)?,
            floor: Floor::new(plain, 2),
            measured: measured()?,
        })
    }

    // What the settings in force of the book draw under each.
    pub(super) fn bills(&self, book: &Book) -> [u64; 5] {
        [
            book.bill(&self.fixed),
            book.bill(&self.plain),
            book.bill(&self.greatest),
            book.bill(&self.floor),
            book.bill(&self.measured),
        ]
    }
}
