// The tables as the image of journal and moment: what they hold, and that openings, legs and lapses keep it.
#![tactic(auto)]

ghost use Rattle.image.specs.Image.{ImageKeeps};

// The image keeps its seven laws.
pub fn image_keeps()
    ensures { ImageKeeps }
{}
