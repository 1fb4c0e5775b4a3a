// The tables of a pool, as a call is lent them: one value for the eight of the fields, to be read or to be changed, and one for all ten, to be filled.
#![tactic(auto)]

ghost use Rattle.std.specs.Prelude.{◌≡◌};
ghost use Rattle.pool.specs.Tables.{field_room, room};
ghost use Rattle.fields.specs.Lent.{fields_in, fields_lent, tables_in};

// A table for each field of a pair: pair i's fields stand at i.
#[derive(Clone, Copy)]
pub struct Fields<'a> {
    pub ids: &'a [u32],
    pub donor_blood: &'a [u8],
    pub patient_blood: &'a [u8],
    pub donor_age: &'a [u8],
    pub patient_age: &'a [u8],
    pub donor_antigens: &'a [u64],
    pub patient_antigens: &'a [u64],
    pub patient_antibodies: &'a [u64],
}

impl Fields<'_> {
    // How many pairs the shortest of the eight can hold.
    #[tactic(auto, unfolding(pool::specs::Tables::field_room))]
    pub fn room(self) -> usize
        ensures { result ≡ field_room (fields_in self.entry) }
    {
        let tissue = self.donor_antigens.len().min(
            self.patient_antigens
                .len()
                .min(self.patient_antibodies.len()),
        );
        let ages = self.donor_age.len().min(self.patient_age.len().min(tissue));
        let bloods = self
            .donor_blood
            .len()
            .min(self.patient_blood.len().min(ages));
        self.ids.len().min(bloods)
    }
}

// The same tables, lent to be changed.
#[derive(Drop)]
pub struct FieldsMut<'a> {
    pub ids: &'a mut [u32],
    pub donor_blood: &'a mut [u8],
    pub patient_blood: &'a mut [u8],
    pub donor_age: &'a mut [u8],
    pub patient_age: &'a mut [u8],
    pub donor_antigens: &'a mut [u64],
    pub patient_antigens: &'a mut [u64],
    pub patient_antibodies: &'a mut [u64],
}

impl FieldsMut<'_> {
    // The tables, to be read.
    pub fn read(&self) -> Fields<'_>
        ensures { fields_in result ≡ fields_lent self.now }
    {
        Fields {
            ids: &*self.ids,
            donor_blood: &*self.donor_blood,
            patient_blood: &*self.patient_blood,
            donor_age: &*self.donor_age,
            patient_age: &*self.patient_age,
            donor_antigens: &*self.donor_antigens,
            patient_antigens: &*self.patient_antigens,
            patient_antibodies: &*self.patient_antibodies,
        }
    }
}

// All ten tables of a pool, to be filled: those, the points, and the shuffle.
#[derive(Drop)]
pub struct Tables<'a> {
    pub points: &'a mut [u16],
    pub ids: &'a mut [u32],
    pub donor_blood: &'a mut [u8],
    pub patient_blood: &'a mut [u8],
    pub donor_age: &'a mut [u8],
    pub patient_age: &'a mut [u8],
    pub donor_antigens: &'a mut [u64],
    pub patient_antigens: &'a mut [u64],
    pub patient_antibodies: &'a mut [u64],
    pub shuffle: &'a mut [u16],
}

impl Tables<'_> {
    // The eight of the fields, to be read.
    pub fn fields(&self) -> Fields<'_>
        ensures { fields_in result ≡ (tables_in self.now).fields }
    {
        let Tables {
            ids,
            donor_blood,
            patient_blood,
            donor_age,
            patient_age,
            donor_antigens,
            patient_antigens,
            patient_antibodies,
            ..
        } = self;
        Fields {
            ids: &**ids,
            donor_blood: &**donor_blood,
            patient_blood: &**patient_blood,
            donor_age: &**donor_age,
            patient_age: &**patient_age,
            donor_antigens: &**donor_antigens,
            patient_antigens: &**patient_antigens,
            patient_antibodies: &**patient_antibodies,
        }
    }

    // How many pairs the shortest of these eight and the shuffle can hold.
    #[tactic(auto, unfolding(pool::specs::Tables::room))]
    pub fn room(&self) -> usize
        ensures { result ≡ room (tables_in self.now) }
    {
        self.fields().room().min(self.shuffle.len())
    }
}
