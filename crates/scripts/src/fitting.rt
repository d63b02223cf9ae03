// How long a listing is at most, as a theorem.
ghost use Rattle.scripts.specs.Listings.{ListingsFit};

// The longest buffer of a report is long enough for the listing of every book that takes calls.
pub fn listings_fit()
    ensures { ListingsFit }
{}
