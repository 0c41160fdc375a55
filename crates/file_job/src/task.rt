ghost use Rattle.file_job.specs.Fits.{Fits};

use crate::Header;

// The lists of a file, each at the front of an array.
#[derive(Clone, Copy)]
pub struct Lists {
    pub vehicles: [u32; 32],
    pub stops: [u32; 64],
    pub distances: [u32; 6400],
    pub draws: [u32; 1024],
}

// The task of a file. Its lists are as long as the header says. They stand in a struct of their own, since that has no fact beside it and so can
// be lent to be filled where the task stays.
#[derive(Clone, Copy)]
pub struct Task {
    pub header: Header,
    pub lists: Lists,
    pub ghost fits: { Fits header },
}
