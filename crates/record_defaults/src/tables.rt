// The protocol's tables as the constants of the code, row by row in their order.
use crate::SolidsEntry;

// Table A.2: the typical average mass of each livestock, in tenths of a kilogram.
pub const MASSES: [u16; crate::LIVESTOCK_COUNT] = [
    6040, // dairy cows (on feed)
    6840, // non-milking dairy cows (on feed)
    4760, // heifers (on feed)
    7500, // bulls (grazing)
    1180, // calves (grazing)
    4200, // heifers (grazing)
    5330, // cows (grazing)
    125, // nursery swine
    700, // grow/finish swine
    1980, // breeding swine
];

// Table A.3: the solids of each livestock, in hundredths of a kilogram a day for 1,000 kg of animal, or its column of Table A.5.
pub const SOLIDS: [SolidsEntry; crate::LIVESTOCK_COUNT] = [
    SolidsEntry::Column(DAIRY_COWS),
    SolidsEntry::Own(556),
    SolidsEntry::Column(HEIFERS),
    SolidsEntry::Own(604),
    SolidsEntry::Own(641),
    SolidsEntry::Column(HEIFERS_GRAZING),
    SolidsEntry::Column(COWS_GRAZING),
    SolidsEntry::Own(889),
    SolidsEntry::Own(536),
    SolidsEntry::Own(271),
];

// Table A.3: the B0 of each livestock, in hundredths.
pub const B0S: [u8; crate::LIVESTOCK_COUNT] = [24, 24, 17, 17, 17, 17, 17, 48, 48, 35];

// The columns of Table A.5, from 0.
const DAIRY_COWS: usize = 0;

const HEIFERS: usize = 1;

const HEIFERS_GRAZING: usize = 2;

const COWS_GRAZING: usize = 3;

const COLUMNS: usize = 4;

// Table A.5: the solids of each state, column by column, in hundredths of a kilogram a day for 1,000 kg of animal.
pub const STATES: [[u16; COLUMNS]; crate::STATE_COUNT] = [
    [802, 742, 782, 702], // Alabama
    [818, 742, 1008, 902], // Alaska
    [1055, 742, 1041, 902], // Arizona
    [711, 822, 787, 700], // Arkansas
    [898, 742, 792, 685], // California
    [911, 742, 765, 646], // Colorado
    [822, 670, 766, 690], // Connecticut
    [760, 670, 789, 690], // Delaware
    [840, 742, 777, 702], // Florida
    [880, 742, 789, 702], // Georgia
    [752, 742, 1030, 902], // Hawaii
    [1034, 742, 1080, 902], // Idaho
    [808, 742, 811, 691], // Illinois
    [849, 742, 801, 691], // Indiana
    [843, 742, 820, 691], // Iowa
    [835, 742, 768, 646], // Kansas
    [770, 742, 797, 702], // Kentucky
    [688, 822, 775, 700], // Louisiana
    [788, 670, 766, 690], // Maine
    [794, 670, 785, 690], // Maryland
    [769, 670, 778, 690], // Massachusetts
    [905, 742, 795, 691], // Michigan
    [813, 742, 805, 691], // Minnesota
    [809, 742, 785, 702], // Mississippi
    [721, 742, 788, 691], // Missouri
    [805, 742, 721, 646], // Montana
    [798, 742, 764, 646], // Nebraska
    [975, 742, 1050, 902], // Nevada
    [858, 670, 778, 690], // New Hampshire
    [764, 670, 792, 690], // New Jersey
    [1003, 742, 1064, 902], // New Mexico
    [824, 670, 799, 690], // New York
    [907, 742, 785, 702], // North Carolina
    [729, 742, 740, 646], // North Dakota
    [794, 742, 794, 691], // Ohio
    [804, 822, 809, 700], // Oklahoma
    [949, 742, 1061, 902], // Oregon
    [827, 670, 803, 690], // Pennsylvania
    [756, 670, 766, 690], // Rhode Island
    [873, 742, 785, 702], // South Carolina
    [824, 742, 750, 646], // South Dakota
    [821, 742, 792, 702], // Tennessee
    [919, 822, 820, 700], // Texas
    [975, 742, 1058, 902], // Utah
    [795, 670, 792, 690], // Vermont
    [864, 742, 795, 702], // Virginia
    [1054, 742, 1087, 902], // Washington
    [729, 670, 782, 690], // West Virginia
    [825, 742, 788, 691], // Wisconsin
    [813, 742, 734, 646], // Wyoming
];
