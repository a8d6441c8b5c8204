// What every question answers of a book.
use super::models::Models;
use book::{Book, BookFault, CriticalBlock, HORIZON, IMAGE_LEN, PLACES};

// What they answer.
#[derive(Clone, Copy, PartialEq)]
pub(super) struct Answers {
    pub(super) settings: [u8; HORIZON],
    // The blocks, in the first elements, and how many there are.
    pub(super) blocks: [CriticalBlock; PLACES],
    pub(super) count: usize,
    pub(super) bills: [u64; 5],
    pub(super) image: [u8; IMAGE_LEN],
    // Whether another book, once it has loaded the image, saves the same.
    pub(super) is_saved_again: bool,
}

impl Answers {
    // Blank answers: every book has other ones.
    pub(super) fn blank() -> Answers {
        Answers {
            settings: [0; HORIZON],
            blocks: [CriticalBlock::default(); PLACES],
            count: 0,
            bills: [0; 5],
            image: [0; IMAGE_LEN],
            is_saved_again: false,
        }
    }
}

// What asks.
#[derive(Drop)]
pub(super) struct Questions {
    models: Models,
    // The book that loads the images.
    other: Book,
}

impl Questions {
    pub(super) fn new(models: Models) -> Questions {
        Questions {
            models,
            other: Book::new(),
        }
    }

    // Whether the other book, once it has loaded the image, saves the same.
    fn saves_again(&mut self, image: &[u8; IMAGE_LEN]) -> Result<bool, BookFault> {
        self.other.load(image)?;
        let mut again = [0xff; IMAGE_LEN];
        self.other.save(&mut again)?;
        Ok(again == *image)
    }

    // What every question answers of the book.
    pub(super) fn ask(&mut self, book: &Book) -> Result<Answers, BookFault> {
        let mut settings = [0xff; HORIZON];
        book.settings(&mut settings)?;
        let mut blocks = [CriticalBlock::default(); PLACES];
        let count = book.blocks(&mut blocks)?;
        let mut image = [0xff; IMAGE_LEN];
        book.save(&mut image)?;
        Ok(Answers {
            settings,
            blocks,
            count,
            bills: self.models.bills(book),
            image,
            is_saved_again: self.saves_again(&image)?,
        })
    }
}
